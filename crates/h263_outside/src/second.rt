//! A desk as the second party of a call sees it.
ghost use Rattle.std.specs.Prelude.{◌≡◌};
ghost use Rattle.h263_outside.specs.Desk.{exchanged, exchanged_outside};

use crate::{Desk, Failed, Role, Unattached};

/// A desk on which the second party's video and pictures stand in the place of the first's, and the
/// other way round; each other role is the desk's own.
#[derive(Drop)]
pub struct Second<'a, D: Desk> {
    desk: &'a mut D,
}

impl<'a, D: Desk> Second<'a, D> {
    /// The desk with the two parties exchanged.
    pub fn new(desk: &'a mut D) -> Second<'a, D>
        ensures outside { ⟦<Second<'a, D> as Desk>⟧.outside result
            ≡ exchanged_outside desk.entry.ghost_name (D.outside desk.old) }
        ensures lent { result.desk.now ≡ desk.old }
        ensures same_loan { result.desk.ghost_name ≡ desk.entry.ghost_name }
    {
        Second { desk }
    }
}

// The other party's role.
fn other(role: Role) -> Role
    ensures { result ≡ exchanged role }
{
    match role {
        Role::Video => Role::Video2,
        Role::Video2 => Role::Video,
        Role::Pictures => Role::Pictures2,
        Role::Pictures2 => Role::Pictures,
        same => same,
    }
}

impl<'a, D: Desk> Desk for Second<'a, D> {
    ghost outside = { λ s. exchanged_outside s.desk.ghost_name (D.outside s.desk.now) };

    fn attach(&mut self, role: Role, name: &str) -> Result<(), Unattached> {
        self.desk.attach(other(role), name)
    }

    fn read(&mut self, role: Role, buf: &mut [u8]) -> Result<usize, Failed> {
        self.desk.read(other(role), buf)
    }

    fn write(&mut self, role: Role, bytes: &[u8]) -> Result<usize, Failed> {
        self.desk.write(other(role), bytes)
    }

    fn flush(&mut self) -> Result<(), Failed> {
        self.desk.flush()
    }
}
