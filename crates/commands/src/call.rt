// What the program was called to do.
ghost use Rattle.std.specs.Prelude.{map, string_bytes};
ghost use Rattle.commands.specs.Call.{Parses};

pub const USAGE: &str = "usage: permits
           tell the story of a user permit on built-in samples
       permits make ID KEY-FILE HARDWARE-FILE
           print the user permit of a hardware ID: ID is the manufacturer ID, and
           each file holds 32 hexadecimal digits of the manufacturer key or of the
           hardware ID, and may end with a line feed
       permits help
           print this";

// The user permit that is to be made: its manufacturer ID, and the files of the key and of the hardware ID.
#[derive(Clone, Copy, Debug)]
pub struct Making<'a> {
    pub id: &'a str,
    pub key_file: &'a str,
    pub hardware_file: &'a str,
}

#[derive(Clone, Copy, Debug)]
pub enum Command<'a> {
    Story,
    Help,
    Make(Making<'a>),
}

// The words are those of the call, the program's own name first.
pub fn parse(words: &[String]) -> Option<Command<'_>>
    ensures { Parses (map string_bytes words.now) result }
{
    match words {
        [_] => Some(Command::Story),
        [_, name] if name.as_str() == "help" => Some(Command::Help),
        [_, name, id, key_file, hardware_file] if name.as_str() == "make" => {
            Some(Command::Make(Making {
                id: id.as_str(),
                key_file: key_file.as_str(),
                hardware_file: hardware_file.as_str(),
            }))
        }
        _ => None,
    }
}
