//! The names of the words by which roles are attached.
ghost use Rattle.std.specs.Prelude.{◌≡◌, option_map};
ghost use Rattle.command_words.specs.Asked.{name_in, plain_roles, traced_roles, send_roles};
ghost use Rattle.command_words.specs.Asked.{recv_roles, log_roles, duplex_roles, group_roles, roles};

use crate::command::Command;
use h263_outside::Role;

fn plain_name(role: Role) -> Option<&'static str>
    ensures { option_map (λ s. s.now) result ≡ name_in plain_roles role }
{
    match role {
        Role::Video => Some("in"),
        Role::Pictures => Some("out"),
        _ => None,
    }
}

fn traced_name(role: Role) -> Option<&'static str>
    ensures { option_map (λ s. s.now) result ≡ name_in traced_roles role }
{
    match role {
        Role::Video => Some("in"),
        Role::Events => Some("trace"),
        Role::Pictures => Some("out"),
        _ => None,
    }
}

fn send_name(role: Role) -> Option<&'static str>
    ensures { option_map (λ s. s.now) result ≡ name_in send_roles role }
{
    match role {
        Role::Video => Some("in"),
        Role::Events => Some("log"),
        Role::Wire => Some("wire"),
        _ => None,
    }
}

fn recv_name(role: Role) -> Option<&'static str>
    ensures { option_map (λ s. s.now) result ≡ name_in recv_roles role }
{
    match role {
        Role::Events => Some("log"),
        Role::Pictures => Some("out"),
        Role::Wire => Some("wire"),
        _ => None,
    }
}

fn log_name(role: Role) -> Option<&'static str>
    ensures { option_map (λ s. s.now) result ≡ name_in log_roles role }
{
    match role {
        Role::Events => Some("log"),
        _ => None,
    }
}

fn duplex_name(role: Role) -> Option<&'static str>
    ensures { option_map (λ s. s.now) result ≡ name_in duplex_roles role }
{
    match role {
        Role::Video => Some("in1"),
        Role::Video2 => Some("in2"),
        Role::Events => Some("trace"),
        Role::Pictures => Some("out1"),
        Role::Pictures2 => Some("out2"),
        _ => None,
    }
}

fn group_name(receivers: u32, role: Role) -> Option<&'static str>
    ensures { option_map (λ s. s.now) result ≡ name_in (group_roles receivers) role }
{
    match role {
        Role::Video => Some("in"),
        Role::Events => Some("trace"),
        Role::Pictures => Some("out"),
        Role::Pictures2 if 2 <= receivers => Some("out2"),
        Role::Wire if 3 <= receivers => Some("out3"),
        _ => None,
    }
}

// The name of the word by which a command attaches a role, if it attaches it by one.
pub(crate) fn name_of(command: Command, role: Role) -> Option<&'static str>
    ensures { option_map (λ s. s.now) result ≡ name_in (roles command) role }
{
    match command {
        Command::Call { traced: false, .. } => plain_name(role),
        Command::Call { traced: true, .. } => traced_name(role),
        Command::Send { .. } => send_name(role),
        Command::Recv { .. } => recv_name(role),
        Command::Demo { .. } => None,
        Command::Rate { .. } => log_name(role),
        Command::Audit { .. } => log_name(role),
        Command::Duplex { .. } => duplex_name(role),
        Command::Group { receivers, .. } => group_name(receivers, role),
    }
}
