//! The roles of a command, one after the other.
ghost use Rattle.std.specs.Prelude.{◌≡◌, ◌≢◌, ◌⊎◌, ◌++◌, ℕ, List, true, false, OnOk, OnErr, IfErr, IfSome, IsErrOf, IsTrue};
ghost use Rattle.h263_outside.specs.Desk.{NoneAttached, OnlyAttaches, with_role};
ghost use Rattle.h263_outside.specs.declared.desk.Role.{Role};
ghost use Rattle.desk_program.specs.Attached.{AreAttached, AttachedAt, are_free, names};
ghost use Rattle.desk_program.specs.Ends.{HasCause, IsOpening, start_status};

use call_report::Status;
use h263_outside::{Desk, Role, Unattached};

/// Attaches a role by a name.
pub fn attach_role<D: Desk>(desk: &mut D, role: Role, name: &str) -> Result<(), Status>
    requires { (D.outside desk.old).attached role ≡ false }
    ensures attached { OnOk result
        ((D.outside desk.new).attached ≡ with_role (D.outside desk.old).attached role true) }
    ensures name { OnOk result (IfSome ((D.outside desk.new).name role) (λ told. told ≡ name.now)) }
    ensures other_names { (r : Role)
        → r ≢ role → (D.outside desk.new).name r ≡ (D.outside desk.old).name r }
    ensures err { OnErr result ((D.outside desk.new).attached ≡ (D.outside desk.old).attached) }
    ensures err_name { OnErr result ((D.outside desk.new).name ≡ (D.outside desk.old).name) }
    ensures kind { IfErr result (λ status.
        (status ≡ Status.OpenFault role) ⊎ (status ≡ Status.OutOfMemory)) }
    ensures cause { HasCause
        (start_status result) (D.outside desk.old).faults (D.outside desk.new).faults }
    // Want of memory, as success, comes with no fault of the desk.
    ensures ok_faults { OnOk result ((D.outside desk.new).faults ≡ (D.outside desk.old).faults) }
    ensures no_memory { IsErrOf result Status.OutOfMemory
        → (D.outside desk.new).faults ≡ (D.outside desk.old).faults }
    ensures rest { OnlyAttaches (D.outside desk.old) (D.outside desk.new) }
{
    match desk.attach(role, name) {
        Ok(()) => Ok(()),
        Err(Unattached::Failed) => Err(Status::OpenFault { role }),
        Err(Unattached::OutOfMemory) => Err(Status::OutOfMemory),
    }
}

/// Attaches these roles by their names, in this order.
pub fn attach_all<D: Desk>(desk: &mut D, order: &[(Role, &str)]) -> Result<(), Status>
    requires { IsTrue (are_free (D.outside desk.old).attached (names order.now)) }
    ensures attached { (first : List (Role × List ℕ)) → AreAttached first (D.outside desk.old) →
        AttachedAt (first ++ names order.now) (start_status result) (D.outside desk.new) }
    ensures alone { NoneAttached (D.outside desk.old).attached
        → AttachedAt (names order.now) (start_status result) (D.outside desk.new) }
    ensures kept { (r : Role)
        → (D.outside desk.old).attached r ≡ true → (D.outside desk.new).attached r ≡ true }
    ensures opening { IfErr result IsOpening }
    ensures cause { HasCause
        (start_status result) (D.outside desk.old).faults (D.outside desk.new).faults }
    // Want of memory, as success, comes with no fault of the desk.
    ensures ok_faults { OnOk result ((D.outside desk.new).faults ≡ (D.outside desk.old).faults) }
    ensures no_memory { IsErrOf result Status.OutOfMemory
        → (D.outside desk.new).faults ≡ (D.outside desk.old).faults }
    ensures rest { OnlyAttaches (D.outside desk.old) (D.outside desk.new) }
{
    for (role, name) in order {
        attach_role(desk, *role, name)?;
    }
    Ok(())
}
