//! What holds of a client that knows a part of the whole.

ghost use Rattle.std.specs.Prelude.{◌≡◌, ◌≢◌, ◌≤◌, ◌+◌, ◌/◌, ℕ, Bool, List, [], ◌++◌, Option, Some, None, IsSome, Result, Ok, Err, true, false, option_map, ◌&&◌, if◌then◌else◌};
ghost use Rattle.posix_calls.specs.Path.{path_names};
ghost use Rattle.posix_calls.specs.Tree.{Descriptors, with_own};
ghost use Rattle.posix_calls.specs.Query.{run};
ghost use Rattle.posix_calls.specs.Part.{Known, Unknown, IsPart, IsLeft, run_part};
ghost use Rattle.posix_calls.specs.Decide.{decide, is_senseless, lowest_free};
ghost use Rattle.posix_calls.specs.Operations.{makes, reply_of, own_after, Step};
ghost use Rattle.posix_calls.specs.declared.operation.Location.{Location};
ghost use Rattle.posix_calls.specs.declared.operation.Missing.{Missing};
ghost use Rattle.posix_calls.specs.declared.operation.Missing.TheVariants.{Node, Blocks};
ghost use Rattle.posix_calls.specs.declared.operation.Operation.{Operation};
ghost use Rattle.posix_calls.specs.declared.call.Call.{Call};
ghost use Rattle.posix_calls.specs.declared.call.Call.TheVariants.{Open, Truncate, Mkdir, Rmdir, Link, Unlink, Rename, Exchange};
ghost use Rattle.posix_calls.specs.declared.call.Flags.{Flags};
ghost use Rattle.posix_calls.specs.declared.call.Reply.TheVariants.{Failed};
ghost use Rattle.posix_calls.specs.declared.limits.TheConstants.{MAX_DESCRIPTORS, MAX_TRANSFER, UNIT_BYTES};
ghost use Rattle.posix_calls.specs.declared.errno.Errno.TheVariants.{Exists, IsDirectory, Busy, NotPermitted};
ghost use Rattle.posix_calls.specs.declared.errno.Errno.{Errno};
ghost use Rattle.log_record.specs.file_graph.Graph.{Graph, FileBody, set_node, is_among, after_effects, touches, swapped_directories};
ghost use Rattle.log_record.specs.file_graph.Units.{growth};
ghost use Rattle.log_record.specs.file_graph.declared.effect.Effect.{Effect};
ghost use Rattle.call_effects.specs.Calls.{answer_over};
ghost use Rattle.call_effects.specs.Effects.{effects_of, kind_if};
ghost use Rattle.call_effects.specs.KnownCopies.{Copies, AreSeen, SwapsAreKnown, known_after};
ghost use Rattle.call_effects.specs.NodeView.{NodeView, view_at, view_after};
ghost use Rattle.call_effects.specs.Blocks.{block_of, block_at, block_after};
ghost use Rattle.call_effects.specs.Records.{effects_asked, growth_asked, units_asked};
ghost use Rattle.call_effects.specs.Wholes.{IsSound, state_of, graph_view, reachable_graph};
ghost use Rattle.call_effects.specs.Fits.{OperationFits, IsNew, IsUnusedFile};
ghost use Rattle.call_effects.specs.Knowledge.{Knowledge, Agrees, IsPutBack, HasCopies, IsForgetful, IsLookedAtNext, IsReadNext, IsNodeMissing, AreBlocksMissing, IsPlanned, IsCopiedEntry, knows_after, knows_made, part_of, stored_view, with_blocks, with_copy, with_granted};

/// No call meets a file that is gone, which is one that has no name and that nobody has open: its outcome is the same over the
/// graph as it stands stored, with such files still in it, and also where such files are put back that were dropped.
pub fn no_call_meets_a_file_that_is_gone()
    ensures stored { (g : Graph) (held : Descriptors) (client : ℕ) (call : Call) → IsSound g held → run (graph_view g held) (decide (held client) call) ≡ run (stored_view g) (decide (held client) call) }
    ensures put_back { (g back : Graph) (held : Descriptors) (client : ℕ) (call : Call) → IsSound g held → IsPutBack g back → run (graph_view g held) (decide (held client) call) ≡ run (stored_view back) (decide (held client) call) }
{}

/// A file that has no name and that nobody has open may be dropped at any time: the graph stands for the same state, stays sound,
/// and agrees with what each client knows, also with one that has copies of the file.
pub fn dropping_a_gone_file_keeps_all()
    ensures state { (g : Graph) (held : Descriptors) (i : ℕ) → IsUnusedFile g held i → state_of (set_node g i None) held ≡ state_of g held }
    ensures sound { (g : Graph) (held : Descriptors) (i : ℕ) → IsSound g held → IsUnusedFile g held i → IsSound (set_node g i None) held }
    ensures agreement { (k : Knowledge) (g : Graph) (held : Descriptors) (i : ℕ) → IsUnusedFile g held i → Agrees k g held → Agrees k (set_node g i None) held }
{}

/// What a client answers by its copies and blocks, and by the kinds that entries name, is so in every sound whole that agrees with
/// what it knows, with the files put back that are gone and that it has copies of.
pub fn part_is_of_the_whole()
    ensures { (k : Knowledge) (g : Graph) (held : Descriptors) → IsSound g held → (agrees : Agrees k g held) → IsPart (part_of k) (stored_view agrees.back) }
{}

/// The outcome of a call by what a client knows, an operation or an error, is its outcome over the whole; so are the effects of an operation
/// that fits, and its growth.
pub fn known_answer_is_of_the_whole()
    ensures call { (k : Knowledge) (g : Graph) (held : Descriptors) (call : Call) (result : Result Operation Errno) → IsSound g held → Agrees k g held → run_part (part_of k) (decide k.own call) ≡ Known result → answer_over g held k.client call ≡ result }
    ensures effects { (k : Knowledge) (g : Graph) (held : Descriptors) (new : ℕ) (operation : Operation) (es : List Effect) → IsSound g held → Agrees k g held → OperationFits g held (held k.client) operation → run_part (part_of k) (effects_asked new operation) ≡ Known (Ok es) → effects_of g new operation ≡ es }
    ensures growth { (k : Knowledge) (g : Graph) (held : Descriptors) (operation : Operation) (units : ℕ) → IsSound g held → Agrees k g held → OperationFits g held (held k.client) operation → run_part (part_of k) (growth_asked operation) ≡ Known (Ok units) → run (graph_view g held) (growth_asked operation) ≡ Ok units }
{}

/// A call that a client decides by what it knows is one step of the file tree, in every sound whole that agrees: if it
/// has an operation, with the operation's effects and the client's descriptors after it, and the whole is sound again, and has grown
/// by the units that the client counts, which a record has room for; if it is an error, the whole stays.
pub fn known_call_is_a_step()
    ensures done { (k : Knowledge) (g : Graph) (held : Descriptors) (call : Call) (new : ℕ) (operation : Operation) (es : List Effect) → IsSound g held → Agrees k g held → IsPlanned k call new operation es → Step (state_of g held) k.client call (reply_of operation) (state_of (after_effects g es) (with_own held k.client (own_after new k.own operation))) }
    ensures sound { (k : Knowledge) (g : Graph) (held : Descriptors) (call : Call) (new : ℕ) (operation : Operation) (es : List Effect) → IsSound g held → Agrees k g held → IsPlanned k call new operation es → IsSound (after_effects g es) (with_own held k.client (own_after new k.own operation)) }
    ensures growth { (k : Knowledge) (g : Graph) (held : Descriptors) (call : Call) (new : ℕ) (operation : Operation) (es : List Effect) (units : ℕ) → IsSound g held → Agrees k g held → IsPlanned k call new operation es → run_part (part_of k) (growth_asked operation) ≡ Known (Ok units) → growth g es ≡ units }
    ensures units { (k : Knowledge) (g : Graph) (held : Descriptors) (call : Call) (new : ℕ) (operation : Operation) (es : List Effect) (units : ℕ) → IsSound g held → Agrees k g held → IsPlanned k call new operation es → run_part (part_of k) (units_asked operation) ≡ Known (Ok units) → growth g es ≡ units }
    ensures refused { (k : Knowledge) (g : Graph) (held : Descriptors) (call : Call) (errno : Errno) → IsSound g held → Agrees k g held → run_part (part_of k) (decide k.own call) ≡ Known (Err errno) → Step (state_of g held) k.client call (Failed errno) (state_of g held) }
{}

/// After a call that a client decided by what it knows, its copies and blocks with the effects, its descriptors, and the numbers
/// that it has not used agree with the whole again, also with a copy of the node that the call made. So does what another client
/// knows, where that has no copy of an inode that the effects touch and no block of one, and was not granted the new number.
pub fn known_call_keeps_agreement()
    ensures own { (k : Knowledge) (g : Graph) (held : Descriptors) (call : Call) (new : ℕ) (operation : Operation) (es : List Effect) → IsSound g held → Agrees k g held → IsPlanned k call new operation es → Agrees (knows_after k new operation es) (after_effects g es) (with_own held k.client (own_after new k.own operation)) }
    ensures made { (k : Knowledge) (g : Graph) (held : Descriptors) (call : Call) (new : ℕ) (operation : Operation) (es : List Effect) → IsSound g held → Agrees k g held → IsPlanned k call new operation es → makes operation ≡ true → Agrees (knows_made k new operation es) (after_effects g es) (with_own held k.client (own_after new k.own operation)) }
    ensures others { (k other : Knowledge) (g : Graph) (held : Descriptors) (call : Call) (new : ℕ) (operation : Operation) (es : List Effect) → IsSound g held → Agrees k g held → IsPlanned k call new operation es → Agrees other g held → other.client ≢ k.client → ((i : ℕ) (copy : Option NodeView) → other.copies i ≡ Some copy → is_among i (touches es) ≡ false) → ((i b : ℕ) (bytes : List ℕ) → other.blocks i b ≡ Some bytes → is_among i (touches es) ≡ false) → (makes operation ≡ true → other.granted new ≡ false) → Agrees other (after_effects g es) (with_own held k.client (own_after new k.own operation)) }
{}

/// A copy of a directory says of each inode that its entries name whether that is a directory: no copy of the inode is needed
/// for this.
pub fn copied_entries_have_kinds()
    ensures { (k : Knowledge) (g : Graph) (held : Descriptors) (at : Location) (i : ℕ) (is_dir : Bool) → IsSound g held → Agrees k g held → IsCopiedEntry k at (i, kind_if is_dir) → (part_of k).is_dir i ≡ Some (Some is_dir) }
{}

/// What is missing is the first thing that a call asks for and that the client has no answer to, in the order of the call's
/// errors: a node, and never its kind alone, or bytes of a file. Of a node the client has no copy, and in every sound whole that
/// agrees there is one. Of a file whose bytes are missing the client has a copy; the blocks are within its size, no more than the
/// longest read touches, and one of them at least it doesn't know. An operation's effects and growth miss nothing but a node, without its bytes.
pub fn missing_is_asked_next()
    ensures first { (k : Knowledge) (call : Call) (what : Missing) → run_part (part_of k) (decide k.own call) ≡ Unknown what → IsLeft (part_of k) what (decide k.own call) }
    ensures looked { (k : Knowledge) (g : Graph) (held : Descriptors) (call : Call) (i : ℕ) → IsSound g held → Agrees k g held → run_part (part_of k) (decide k.own call) ≡ Unknown (Node i) → IsLookedAtNext (part_of k) i (decide k.own call) }
    ensures read { (k : Knowledge) (call : Call) (i first count : ℕ) → run_part (part_of k) (decide k.own call) ≡ Unknown (Blocks i first count) → IsReadNext (part_of k) i first count (decide k.own call) }
    ensures there { (k : Knowledge) (g : Graph) (held : Descriptors) (call : Call) (i : ℕ) → IsSound g held → Agrees k g held → run_part (part_of k) (decide k.own call) ≡ Unknown (Node i) → IsSome (reachable_graph g held i) }
    ensures blocks_there { (k : Knowledge) (g : Graph) (held : Descriptors) (call : Call) (i first count : ℕ) → IsSound g held → Agrees k g held → run_part (part_of k) (decide k.own call) ≡ Unknown (Blocks i first count) → IsSome (reachable_graph g held i) }
    ensures no_copy { (k : Knowledge) (call : Call) (i : ℕ) → run_part (part_of k) (decide k.own call) ≡ Unknown (Node i) → k.copies i ≡ None }
    ensures blocks { (k : Knowledge) (call : Call) (i first count : ℕ) → run_part (part_of k) (decide k.own call) ≡ Unknown (Blocks i first count) → AreBlocksMissing k i first count }
    ensures few_blocks { (k : Knowledge) (call : Call) (i first count : ℕ) → run_part (part_of k) (decide k.own call) ≡ Unknown (Blocks i first count) → count ≤ MAX_TRANSFER / UNIT_BYTES + 1 }
    ensures effects_there { (k : Knowledge) (g : Graph) (held : Descriptors) (new : ℕ) (operation : Operation) (i : ℕ) → IsSound g held → Agrees k g held → OperationFits g held (held k.client) operation → run_part (part_of k) (effects_asked new operation) ≡ Unknown (Node i) → IsSome (reachable_graph g held i) }
    ensures effects { (k : Knowledge) (new : ℕ) (operation : Operation) (what : Missing) → run_part (part_of k) (effects_asked new operation) ≡ Unknown what → IsNodeMissing k what }
    ensures growth_there { (k : Knowledge) (g : Graph) (held : Descriptors) (operation : Operation) (i : ℕ) → IsSound g held → Agrees k g held → OperationFits g held (held k.client) operation → run_part (part_of k) (growth_asked operation) ≡ Unknown (Node i) → IsSome (reachable_graph g held i) }
    ensures growth { (k : Knowledge) (operation : Operation) (what : Missing) → run_part (part_of k) (growth_asked operation) ≡ Unknown what → IsNodeMissing k what }
{}

/// A node of which a client got a copy is missing no longer, nor are blocks that it got, and what a client knew it still knows with
/// more copies and blocks.
pub fn served_copy_is_missing_no_longer()
    ensures call { (k : Knowledge) (i : ℕ) (copy : Option NodeView) (call : Call) → run_part (part_of (with_copy k i copy)) (decide k.own call) ≢ Unknown (Node i) }
    ensures effects { (k : Knowledge) (i : ℕ) (copy : Option NodeView) (new : ℕ) (operation : Operation) → run_part (part_of (with_copy k i copy)) (effects_asked new operation) ≢ Unknown (Node i) }
    ensures growth { (k : Knowledge) (i : ℕ) (copy : Option NodeView) (operation : Operation) → run_part (part_of (with_copy k i copy)) (growth_asked operation) ≢ Unknown (Node i) }
    ensures blocks { (k : Knowledge) (i first count : ℕ) (block : ℕ → List ℕ) (call : Call) → run_part (part_of (with_blocks k i first count block)) (decide k.own call) ≢ Unknown (Blocks i first count) }
    ensures call_known { (k more : Knowledge) (g : Graph) (held : Descriptors) (call : Call) (result : Result Operation Errno) → IsSound g held → Agrees k g held → Agrees more g held → HasCopies more k → run_part (part_of k) (decide k.own call) ≡ Known result → run_part (part_of more) (decide k.own call) ≡ Known result }
    ensures effects_known { (k more : Knowledge) (g : Graph) (held : Descriptors) (new : ℕ) (operation : Operation) (es : List Effect) → IsSound g held → Agrees k g held → Agrees more g held → HasCopies more k → run_part (part_of k) (effects_asked new operation) ≡ Known (Ok es) → run_part (part_of more) (effects_asked new operation) ≡ Known (Ok es) }
    ensures growth_known { (k more : Knowledge) (g : Graph) (held : Descriptors) (operation : Operation) (units : ℕ) → IsSound g held → Agrees k g held → Agrees more g held → HasCopies more k → run_part (part_of k) (growth_asked operation) ≡ Known (Ok units) → run_part (part_of more) (growth_asked operation) ≡ Known (Ok units) }
{}

/// What a client gets of a whole that agrees with what it knows agrees with it too: the node that stands at an inode, where nothing
/// stands there if it knows no block of what once did, blocks of a file, and a number that is free for a new node. So does what is
/// left where it forgets some of it.
pub fn served_copy_agrees()
    ensures node { (k : Knowledge) (g : Graph) (held : Descriptors) (i : ℕ) → Agrees k g held → (g i ≡ None → (b : ℕ) → k.blocks i b ≡ None) → Agrees (with_copy k i (view_at g i)) g held }
    ensures blocks { (k : Knowledge) (g : Graph) (held : Descriptors) (i first count names : ℕ) (bytes : List ℕ) → Agrees k g held → g i ≡ Some (record { names = names; body = FileBody bytes }) → Agrees (with_blocks k i first count (λ b. block_of b bytes)) g held }
    ensures granted { (k : Knowledge) (g : Graph) (held : Descriptors) (i : ℕ) → Agrees k g held → IsNew g i → Agrees (with_granted k i) g held }
    ensures less { (k less : Knowledge) (g : Graph) (held : Descriptors) → Agrees k g held → IsForgetful k less → Agrees less g held }
{}

/// A client knows both directories of each name that the effects of a call swap, which it decided by what it knows.
pub fn planned_swaps_are_known()
    ensures { (k : Knowledge) (call : Call) (new : ℕ) (operation : Operation) (es : List Effect) → IsPlanned k call new operation es → SwapsAreKnown k.copies es }
{}

/// What is known of nodes of a graph, and the effects that follow, give what is so after them, where both directories of each Swap are
/// known when its turn comes. Of an inode that no Swap names it depends on what was known of that inode alone. Lists of effects one
/// behind the other are taken one after the other. What is known stays known, so it is enough that all directories that Swaps name
/// are known before the effects.
pub fn known_nodes_are_so_after_effects()
    ensures seen { (g : Graph) (es : List Effect) (known : Copies) → AreSeen known g → SwapsAreKnown known es → AreSeen (known_after es known) (after_effects g es) }
    ensures alone { (es : List Effect) (known : Copies) (i : ℕ) → is_among i (swapped_directories es) ≡ false → known_after es known i ≡ option_map (view_after es i) (known i) }
    ensures join { (first rest : List Effect) (known : Copies) → known_after (first ++ rest) known ≡ known_after rest (known_after first known) }
    ensures swaps { (es : List Effect) (known : Copies) → ((i : ℕ) → is_among i (swapped_directories es) ≡ true → IsSome (known i)) → SwapsAreKnown known es }
{}

/// What a client fetched of a whole, and effects of its own that the whole does not have yet, give what the whole has after them: the
/// view of each node that no Swap names is that of the fetched view after the effects, and a block is the fetched one after them, or is
/// known from the effects alone. Lists of effects one behind the other are taken one after the other.
pub fn effects_replay_over_what_was_fetched()
    ensures view { (g : Graph) (es : List Effect) (i : ℕ) → is_among i (swapped_directories es) ≡ false → view_at (after_effects g es) i ≡ view_after es i (view_at g i) }
    ensures block { (g : Graph) (es : List Effect) (i b : ℕ) (fetched : Option (List ℕ)) (bytes : List ℕ) → ((block : List ℕ) → fetched ≡ Some block → block_at g i b ≡ Some block) → block_after es i b fetched ≡ Some bytes → block_at (after_effects g es) i b ≡ Some bytes }
    ensures views_join { (first rest : List Effect) (i : ℕ) (view : Option NodeView) → view_after (first ++ rest) i view ≡ view_after rest i (view_after first i view) }
    ensures blocks_join { (first rest : List Effect) (i b : ℕ) (block : Option (List ℕ)) → block_after (first ++ rest) i b block ≡ block_after rest i b (block_after first i b block) }
{}

/// A call on the root that every tree refuses is refused by what any client knows, with no copy at all: the root is known to be
/// a directory.
pub fn root_is_refused_without_a_copy()
    ensures open { (k : Knowledge) (path : List ℕ) (flags : Flags) (number : ℕ) → path_names path ≡ Ok [] → is_senseless flags ≡ false → lowest_free k.own 0 MAX_DESCRIPTORS ≡ Some number → run_part (part_of k) (decide k.own (Open path flags)) ≡ Known (Err (if flags.create && flags.exclusive then Exists else IsDirectory)) }
    ensures truncate { (k : Knowledge) (path : List ℕ) (len : ℕ) → path_names path ≡ Ok [] → run_part (part_of k) (decide k.own (Truncate path len)) ≡ Known (Err IsDirectory) }
    ensures mkdir { (k : Knowledge) (path : List ℕ) → path_names path ≡ Ok [] → run_part (part_of k) (decide k.own (Mkdir path)) ≡ Known (Err Exists) }
    ensures rmdir { (k : Knowledge) (path : List ℕ) → path_names path ≡ Ok [] → run_part (part_of k) (decide k.own (Rmdir path)) ≡ Known (Err Busy) }
    ensures link { (k : Knowledge) (path new : List ℕ) (names : List (List ℕ)) → path_names path ≡ Ok [] → path_names new ≡ Ok names → run_part (part_of k) (decide k.own (Link path new)) ≡ Known (Err NotPermitted) }
    ensures unlink { (k : Knowledge) (path : List ℕ) → path_names path ≡ Ok [] → run_part (part_of k) (decide k.own (Unlink path)) ≡ Known (Err Busy) }
    ensures rename { (k : Knowledge) (path new : List ℕ) (names : List (List ℕ)) → path_names path ≡ Ok [] → path_names new ≡ Ok names → run_part (part_of k) (decide k.own (Rename path new)) ≡ Known (Err Busy) }
    ensures renamed { (k : Knowledge) (old path : List ℕ) (names : List (List ℕ)) → path_names old ≡ Ok names → path_names path ≡ Ok [] → run_part (part_of k) (decide k.own (Rename old path)) ≡ Known (Err Busy) }
    ensures exchange { (k : Knowledge) (path second : List ℕ) (names : List (List ℕ)) → path_names path ≡ Ok [] → path_names second ≡ Ok names → run_part (part_of k) (decide k.own (Exchange path second)) ≡ Known (Err Busy) }
    ensures exchanged { (k : Knowledge) (first path : List ℕ) (names : List (List ℕ)) → path_names first ≡ Ok names → path_names path ≡ Ok [] → run_part (part_of k) (decide k.own (Exchange first path)) ≡ Known (Err Busy) }
{}
