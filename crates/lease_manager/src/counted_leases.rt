//! Leases are taken, and the counts stay, whatever comes of it.
ghost use Rattle.std.specs.Prelude.{◌≡◌, IfErr, OnOk};
ghost use Rattle.lease_manager.specs.declared.view.LeaseMode.TheVariants.{Free, Reading, Writing};
ghost use Rattle.lease_manager.specs.Words.{HasWord};
ghost use Rattle.lease_manager.specs.Marks.{ShowsOther, ShowsWriter};
ghost use Rattle.lease_manager.specs.Passes.{lease_of, with_lease, refused_at, tried_at};
ghost use Rattle.lease_manager.specs.LeaseCounts.{CountsAs};

use crate::{Busy, Leases, Pass};

/// Takes a read lease, as `Leases::take_read` does.
pub fn take_read(leases: &Leases, pass: &mut Pass, inode: u32) -> Result<(), Busy>
    requires table { pass.old.table ≡ leases.now }
    requires inode { HasWord inode }
    requires free { lease_of pass.old inode ≡ Free }
    ensures taken { OnOk result (pass.new ≡ with_lease pass.old inode Reading) }
    ensures lease { OnOk result (lease_of pass.new inode ≡ Reading) }
    ensures refused { IfErr result (λ e. pass.new ≡ tried_at pass.old inode e.0) }
    ensures other { IfErr result (λ e. ShowsWriter pass.old.part.place e.0) }
    ensures kept { CountsAs pass.old pass.new }
{
    leases.take_read(pass, inode)
}

/// Takes the write lease, as `Leases::take_write` does.
pub fn take_write(leases: &Leases, pass: &mut Pass, inode: u32) -> Result<(), Busy>
    requires table { pass.old.table ≡ leases.now }
    requires inode { HasWord inode }
    requires free { lease_of pass.old inode ≡ Free }
    ensures taken { OnOk result (pass.new ≡ with_lease pass.old inode Writing) }
    ensures lease { OnOk result (lease_of pass.new inode ≡ Writing) }
    ensures refused { IfErr result (λ e. pass.new ≡ refused_at pass.old inode e.0) }
    ensures other { IfErr result (λ e. ShowsOther pass.old.part.place e.0) }
    ensures kept { CountsAs pass.old pass.new }
{
    leases.take_write(pass, inode)
}

/// Makes a read lease the write lease, as `Leases::raise` does.
pub fn raise(leases: &Leases, pass: &mut Pass, inode: u32) -> Result<(), Busy>
    requires table { pass.old.table ≡ leases.now }
    requires inode { HasWord inode }
    requires held { lease_of pass.old inode ≡ Reading }
    ensures raised { OnOk result (pass.new ≡ with_lease pass.old inode Writing) }
    ensures lease { OnOk result (lease_of pass.new inode ≡ Writing) }
    ensures refused { IfErr result (λ e. pass.new ≡ refused_at pass.old inode e.0) }
    ensures other { IfErr result (λ e. ShowsOther pass.old.part.place e.0) }
    ensures kept { CountsAs pass.old pass.new }
{
    leases.raise(pass, inode)
}
