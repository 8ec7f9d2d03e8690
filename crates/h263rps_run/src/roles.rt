//! The roles of a command, with the words by which it attaches them.
ghost use Rattle.std.specs.Prelude.{◌≡◌, ◌≤◌, length, take};
ghost use Rattle.command_words.specs.Asked.{HasNames};
ghost use Rattle.command_words.specs.View.{asked_of};
ghost use Rattle.desk_program.specs.Attached.{names};
ghost use Rattle.h263rps_run.specs.Output.{roles_of};

use command_words::Words;
use h263_outside::Role;

// In which order a command attaches those that it has words for. The report has none: it is
// attached before the words are read.
const ORDER: [Role; 6] = [
    Role::Video,
    Role::Video2,
    Role::Events,
    Role::Pictures,
    Role::Pictures2,
    Role::Wire,
];

/// Puts the roles of a command into these places, each with its word, and answers how many there
/// are.
pub fn put_roles<'a>(words: &Words<'a>, places: &mut [(Role, &'a str); 6]) -> usize
    requires { HasNames (asked_of words.now) }
    ensures few { result ≤ 6 }
    ensures long { length places.new ≡ 6 }
    ensures roles { names (take result places.new)
        ≡ roles_of words.now.command (asked_of words.now) }
{
    let mut count = 0;
    'order: for role in ORDER {
        if let Some(word) = words.name(role) {
            places[count] = (role, word);
            count += 1;
        }
    }
    count
}
