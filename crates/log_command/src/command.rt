//! What a command does with the entries of a log.
ghost use Rattle.std.specs.Prelude.{◌≡◌, ◌+◌, ◌<◌, ℕ, Bool, List, IfOk, IfErr, OnOk, OnErr};
ghost use Rattle.h263_outside.specs.Desk.{OnlyWrites, Rose};
ghost use Rattle.h263_outside.specs.declared.desk.Role.{Role};
ghost use Rattle.call_report.specs.Status.{phase};
ghost use Rattle.desk_program.specs.Ends.{Gains, GainsFronts, HasCause, start_status};
ghost use Rattle.log_command.specs.Log.{LogRules, ReadyAfter, StopsAtHead};

use call_report::Status;
use event_logs::Side;
use h263_outside::Desk;
use std::alloc::Global;

/// A command by what it does with one entry of its log, and at the log's end. It writes, and reads
/// nothing itself. Its log has packets and entries of one other kind: a receiver's has plays.
///
/// Its meaning is `first`, `head` and `rules`; the methods do that over any desk. Where one fails,
/// a write has failed, and a prefix of the text was written.
pub trait LogCommand {
    /// What the words ask for.
    type Setup;

    /// What it keeps in mind of the entries so far, in the subject's words.
    ghost State: { Type 0 };

    /// What it keeps in mind before the first entry, and what it writes then.
    ghost first: { Self.Setup → Self.State };

    ghost head: { Self.Setup → Role → List ℕ };

    /// What it does with each entry, and at the end.
    ghost rules: { LogRules Self.State };

    /// It keeps this in mind.
    ghost stands: { Self → Self.State → Type 0 };

    /// How many plays there were.
    ghost played: { Self → ℕ };

    /// It can begin, and go on after this many entries, with these roles attached.
    ghost opens: { Self.Setup → (Role → Bool) → Type 0 };

    ghost ready: { Self → ℕ → (Role → Bool) → Type 0 };

    /// Whose log it is.
    fn side() -> Side
        ensures { result ≡ rules.side };

    /// Does what comes before the first entry. Memory may be refused to it before it writes.
    fn start<D: Desk>(alloc: Global, setup: &Self::Setup, desk: &mut D) -> Result<Self, Status>
        requires { opens setup.now (D.outside desk.old).attached }
        ensures stands { IfOk result (λ command. stands command (first setup.now)) }
        ensures ready { IfOk result (λ command. ready command 0 (D.outside desk.new).attached) }
        ensures ok { OnOk result
            (Gains (head setup.now) (D.outside desk.old).written (D.outside desk.new).written) }
        ensures err { IfErr result (λ status. StopsAtHead (phase status) (head setup.now)
            (D.outside desk.old).written (D.outside desk.new).written) }
        ensures cause { HasCause
            (start_status result) (D.outside desk.old).faults (D.outside desk.new).faults }
        ensures rest { OnlyWrites (D.outside desk.old) (D.outside desk.new) };

    /// Takes the bytes of a packet.
    fn packet<D: Desk>(&mut self, desk: &mut D, bytes: &[u8]) -> Result<(), Status>
        requires { ReadyAfter 16777215 (λ n. ready self.old n (D.outside desk.old).attached) }
        ensures stands { (s : Self.State)
            → stands self.old s → stands self.new (rules.packet s bytes.now) }
        ensures ready { (n : ℕ) → ready self.old n (D.outside desk.old).attached
            → ready self.new (n + 1) (D.outside desk.new).attached }
        ensures ok { (s : Self.State) → stands self.old s
            → OnOk result (Gains (rules.packet_text s bytes.now)
            (D.outside desk.old).written (D.outside desk.new).written) }
        ensures err { (s : Self.State) → stands self.old s
            → OnErr result (GainsFronts (rules.packet_text s bytes.now)
            (D.outside desk.old).written (D.outside desk.new).written) }
        ensures kind { IfErr result (λ status. status ≡ Status.WriteFault) }
        ensures cause { OnErr result
            (Rose (D.outside desk.old).faults.write (D.outside desk.new).faults.write) }
        ensures rest { OnlyWrites (D.outside desk.old) (D.outside desk.new) };

    /// How many plays there were.
    fn plays(&self) -> u32
        ensures count { result ≡ played self.now }
        ensures is { (s : Self.State) → stands self.now s → result ≡ rules.plays s };

    /// Takes an entry of the other kind, with its bytes: a play has none.
    fn other<D: Desk>(&mut self, desk: &mut D, bytes: &[u8]) -> Result<(), Status>
        requires played { played self.old < 1048576 }
        requires ready { ReadyAfter 16777215
            (λ n. ready self.old n (D.outside desk.old).attached) }
        ensures stands { (s : Self.State)
            → stands self.old s → stands self.new (rules.other s bytes.now) }
        ensures ready { (n : ℕ) → ready self.old n (D.outside desk.old).attached
            → ready self.new (n + 1) (D.outside desk.new).attached }
        ensures ok { (s : Self.State) → stands self.old s
            → OnOk result (Gains (rules.other_text s bytes.now)
            (D.outside desk.old).written (D.outside desk.new).written) }
        ensures err { (s : Self.State) → stands self.old s
            → OnErr result (GainsFronts (rules.other_text s bytes.now)
            (D.outside desk.old).written (D.outside desk.new).written) }
        ensures kind { IfErr result (λ status. status ≡ Status.WriteFault) }
        ensures cause { OnErr result
            (Rose (D.outside desk.old).faults.write (D.outside desk.new).faults.write) }
        ensures rest { OnlyWrites (D.outside desk.old) (D.outside desk.new) };

    /// Writes what comes at the end of the log.
    fn close<D: Desk>(&self, desk: &mut D) -> Result<(), Status>
        requires { ReadyAfter 16777216 (λ n. ready self.now n (D.outside desk.old).attached) }
        ensures ok { (s : Self.State) → stands self.now s → OnOk result (Gains (rules.end_text s)
            (D.outside desk.old).written (D.outside desk.new).written) }
        ensures err { (s : Self.State) → stands self.now s
            → OnErr result (GainsFronts (rules.end_text s)
            (D.outside desk.old).written (D.outside desk.new).written) }
        ensures kind { IfErr result (λ status. status ≡ Status.WriteFault) }
        ensures cause { OnErr result
            (Rose (D.outside desk.old).faults.write (D.outside desk.new).faults.write) }
        ensures rest { OnlyWrites (D.outside desk.old) (D.outside desk.new) };

    /// Gives back what it holds.
    fn finish(self);
}
