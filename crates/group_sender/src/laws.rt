//! What holds of every group. Each law is the contract of a function that does nothing.
ghost use Rattle.call_model.specs.Coding.{Coding, Encoding, Pictures, Rules};
ghost use Rattle.call_model.specs.Lawful.{IsCoding, IsRules};
ghost use Rattle.group_sender.specs.Hearing.{GroupIsHeard};
ghost use Rattle.group_sender.specs.InACall.{GroupIsFollowed};
ghost use Rattle.group_sender.specs.Laws.{AllHaveIs, FeedbackChangesOne, JoinChangesOne};
ghost use Rattle.group_sender.specs.Laws.{JoinerHasNone, LeaveChangesOne, LeaverFrees};
ghost use Rattle.group_sender.specs.Laws.{OneIsASender, ReferenceIsNewestOfAll, WaitingIsIntra};

use call_model::laws as call_model_laws;

/// The reference of each picture is the newest one in the window that each receiver which is there
/// is known to have (`reference`, `all`). Without one, or where its chain may not grow, the picture
/// is coded by itself; so it is while a receiver is waited for (`waits`).
pub fn newest_of_all<Frame, Style, Mb, Picture, MessageFault>()
    ensures reference { (pictures : Pictures Style Mb Picture)
        (encoding : Encoding Frame Style Mb Picture MessageFault) (rules : Rules)
        → ReferenceIsNewestOfAll pictures encoding rules }
    ensures all { AllHaveIs }
    ensures waits { (pictures : Pictures Style Mb Picture)
        (encoding : Encoding Frame Style Mb Picture MessageFault) (rules : Rules)
        → WaitingIsIntra pictures encoding rules }
{
    call_model_laws::searches();
}

/// A group of one, whose receiver is there from the start, codes what a sender codes.
pub fn one_is_a_sender<Frame, Style, Mb, Picture, MessageFault>()
    ensures { (pictures : Pictures Style Mb Picture)
        (encoding : Encoding Frame Style Mb Picture MessageFault) (rules : Rules)
        → OneIsASender pictures encoding rules }
{}

/// What one receiver says or does changes no other's known pictures (`says`, `joins`, `leaves`). One
/// that joins has none of the pictures before, so the next picture is coded by itself (`joiner`);
/// one that leaves frees what all others have (`leaver`).
pub fn others_are_left_alone<Frame, Style, Mb, Picture, MessageFault>()
    ensures says { (pictures : Pictures Style Mb Picture)
        (encoding : Encoding Frame Style Mb Picture MessageFault) (rules : Rules)
        → FeedbackChangesOne pictures encoding rules }
    ensures joins { JoinChangesOne Style Mb Picture }
    ensures leaves { LeaveChangesOne Style Mb Picture }
    ensures joiner { JoinerHasNone Style Mb Picture }
    ensures leaver { LeaverFrees Style Mb Picture }
{}

/// Each receiver that is there follows the group, from its joining on, in any call that is near for
/// it, whatever the others lose or say: it answers and plays as its call does, so each picture whose
/// packets all arrive while it is open is exact and the sender's own, and no other is marked exact.
pub fn group<Frame, Style, Mb, Picture, Fault, MessageFault>()
    ensures { (coding : Coding Frame Style Mb Picture Fault MessageFault) (rules : Rules)
        → IsCoding coding rules → IsRules rules → GroupIsFollowed coding rules }
{
    call_model_laws::searches();
    call_model_laws::any_sound_sender::<Style, Mb, Picture, Fault>();
}

/// In such a call each receiver says what its call says, each message about its picture (`says`),
/// and the sender knows of it what its call knows (`knows`).
pub fn each_is_heard<Frame, Style, Mb, Picture, Fault, MessageFault>()
    ensures { (coding : Coding Frame Style Mb Picture Fault MessageFault) (rules : Rules)
        → IsCoding coding rules → IsRules rules → GroupIsHeard coding rules }
{
    call_model_laws::searches();
    call_model_laws::any_sound_sender::<Style, Mb, Picture, Fault>();
    call_model_laws::says::<Style, Mb, Picture, Fault>();
}
