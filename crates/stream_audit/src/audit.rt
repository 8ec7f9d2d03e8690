//! The audit of a log.
ghost use Rattle.std.specs.Prelude.{◌≡◌, ◌+◌, ◌≤◌, ◌<◌, ◌^◌, List, [], ◌∷◌, None, IfOk, IsSome};
ghost use Rattle.h263_types.specs.Params.{IsParams};

use crate::kept::Kept;
use crate::verdict::{Broken, Rule, Verdict};
use h263_types::{Mb, OutOfMemory, Params};
use packet_collector::read_packet;
use std::alloc::Global;
use std::marker::Model;

/// Judges the log of a stream, entry by entry: packets that were sent, and feedback that had
/// arrived before the next packet was sent.
#[derive(Drop)]
pub struct Audit {
    kept: Kept,
    // Room for the macroblocks of a packet, which has that of a whole picture.
    mbs: Vec<Mb>,
}

impl Model for Audit {
    ghost use Rattle.std.specs.Prelude.{◌≡◌, length};
    ghost use Rattle.h263_types.specs.Sizes.{mbs_of};
    ghost use Rattle.stream_audit.specs.declared.kept.Kept.{Kept};
    ghost use Rattle.stream_audit.specs.State.{AuditFits};

    ghost Value = { Kept };

    ghost view = { λ a. a.kept };

    ghost invariant = { λ a. AuditFits a.kept × (length a.mbs.items ≡ mbs_of a.kept.params.format) };
}

impl Audit {
    ghost use Rattle.stream_audit.specs.Logs.{first_broken_on, stream_on, verdict_on};
    ghost use Rattle.stream_audit.specs.Stream.{LogEntry, Sent, Fed, pictures_in};
    ghost use Rattle.stream_audit.specs.State.{StandsForLog};

    /// Nothing was sent. All memory of the audit is taken here.
    pub fn start(alloc: Global, params: &Params) -> Result<Audit, OutOfMemory>
        requires { IsParams params.now }
        ensures params { IfOk result (λ a. a.params ≡ params.now) }
        ensures pictures { IfOk result (λ a. a.pictures ≡ 0) }
        ensures stands { IfOk result (λ a. StandsForLog a []) }
    {
        let mbs = vec![in alloc; Mb::Skip; params.format.mbs() as usize]?;
        let kept = Kept::start(alloc, params)?;
        Ok(Audit { kept, mbs })
    }

    /// Takes the bytes of a packet, which begins a picture at most. A log has at most 16,777,216
    /// entries, and so no more pictures. After a broken rule nothing more is kept.
    pub fn packet(&mut self, bytes: &[u8])
        requires { self.old.pictures < 2 ^ 24 }
        ensures params { self.new.params ≡ self.old.params }
        ensures pictures { self.new.pictures ≤ self.old.pictures + 1 }
        ensures stands { (past : List LogEntry) → StandsForLog self.old past
            → StandsForLog self.new (Sent bytes.now ∷ past) }
        // A packet that breaks a rule begins no picture,
        ensures broken { IsSome self.new.broken → self.new.pictures ≡ self.old.pictures }
        // and one after that changes nothing at all.
        ensures later { IsSome self.old.broken → self.new ≡ self.old }
    {
        if let Some(_) = self.kept.broken {
            return;
        }
        match read_packet(bytes, self.kept.params.format, &mut self.mbs) {
            Err(_) => {
                let number = self.kept.present();
                self.kept.breaks(number, Rule::Packet);
            }
            Ok(piece) => self.kept.judge(&piece),
        }
    }

    /// Takes the bytes of a message that had arrived.
    pub fn feedback(&mut self, bytes: &[u8])
        ensures params { self.new.params ≡ self.old.params }
        ensures pictures { self.new.pictures ≡ self.old.pictures }
        ensures stands { (past : List LogEntry) → StandsForLog self.old past
            → StandsForLog self.new (Fed bytes.now ∷ past) }
        ensures later { IsSome self.old.broken → self.new ≡ self.old }
    {
        match self.kept.broken {
            Some(_) => {}
            None => self.kept.note(bytes),
        }
    }

    /// How many pictures were begun, up to the first broken rule.
    pub fn pictures(&self) -> u32
        ensures count { result ≡ self.now.pictures }
        ensures stream { (past : List LogEntry) → StandsForLog self.now past
            → first_broken_on self.now.params past ≡ None
            → result ≡ pictures_in (stream_on self.now.params past) }
    {
        self.kept.pictures
    }

    /// The verdict, were the log at its end.
    pub fn verdict(&self) -> Verdict
        ensures { (past : List LogEntry) → StandsForLog self.now past
            → result ≡ verdict_on self.now.params past }
    {
        match self.kept.broken {
            Some(Broken { number, rule }) => Verdict::No { number, rule },
            None => {
                if self.kept.is_whole() {
                    let pictures = self.kept.pictures;
                    Verdict::Yes { pictures }
                } else {
                    let number = self.kept.present();
                    let rule = Rule::Gap;
                    Verdict::No { number, rule }
                }
            }
        }
    }

    /// The verdict on the log.
    pub fn close(self) -> Verdict
        ensures { (past : List LogEntry) → StandsForLog self past
            → result ≡ verdict_on self.params past }
    {
        self.verdict()
    }
}
