//! What the commands' own laws say together.
ghost use Rattle.command_words.specs.declared.command.Command.{Command};
ghost use Rattle.h263rps_run.specs.Promises.{IsRefusedRightly};

use audit_command::laws as audit_command_laws;
use call_command::laws as call_command_laws;
use demo_command::laws as demo_command_laws;
use duplex_command::laws as duplex_command_laws;
use group_command::laws as group_command_laws;
use rate_command::laws as rate_command_laws;
use recv_command::laws as recv_command_laws;
use send_command::laws as send_command_laws;

/// A command that refuses a video refuses it for the video's first fault.
pub fn refused_videos()
    ensures { (c : Command) → IsRefusedRightly c }
{
    call_command_laws::refused_videos();
    call_command_laws::no_second_video();
    send_command_laws::refused_videos();
    send_command_laws::no_second_video();
    recv_command_laws::no_video_refused();
    recv_command_laws::no_joined_video_refused();
    demo_command_laws::ends_well();
    rate_command_laws::no_video_refused();
    audit_command_laws::no_video_refused();
    duplex_command_laws::refused_videos();
    group_command_laws::refused_videos();
    group_command_laws::no_second_video();
}
