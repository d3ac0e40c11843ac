//! What holds of all messages.

ghost use Rattle.std.specs.Prelude.{◌≡◌, List, ℕ};
ghost use Rattle.fuse_wire.specs.declared.header.Header.{Header};
ghost use Rattle.fuse_wire.specs.declared.request.Request.{Request};
ghost use Rattle.fuse_wire.specs.Spelling.{Spells};
ghost use Rattle.fuse_wire.specs.Contents.{contents};

/// Bytes spell one request at most, under one header: two that they spell have the same contents.
pub fn bytes_spell_one_request()
    ensures { (bytes : List ℕ) (g h : Header) (r s : Request) → Spells bytes g r → Spells bytes h s → (g ≡ h) × (contents r ≡ contents s) }
{}
