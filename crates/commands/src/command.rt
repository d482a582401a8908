// The commands, by the word that names them, and the words that they take.
ghost use Rattle.std.specs.Prelude.{◌≡◌, ◌≤◌};
ghost use Rattle.commands.specs.Reading.{word};
ghost use Rattle.commands.specs.Taking.{command_number, words_of, Names, There};

use wire::words;

#[derive(Clone, Copy, PartialEq, Eq)]
pub enum Command {
    Open,
    Ask,
    Offer,
    Withdraw,
    PageSize,
    Pixel,
    ComposeRows,
    CheckRows,
    RowOfImage,
    Coordinates,
    Set,
    Data,
}

// A word that names no command.
#[derive(Clone, Copy, PartialEq, Eq)]
pub struct NoCommand;

impl TryFrom<u32> for Command {
    type Error = NoCommand;

    ghost try_from_gives = { Names };

    fn try_from(word: u32) -> Result<Command, NoCommand> {
        match word {
            0 => Ok(Command::Open),
            1 => Ok(Command::Ask),
            2 => Ok(Command::Offer),
            3 => Ok(Command::Withdraw),
            4 => Ok(Command::PageSize),
            5 => Ok(Command::Pixel),
            6 => Ok(Command::ComposeRows),
            7 => Ok(Command::CheckRows),
            8 => Ok(Command::RowOfImage),
            9 => Ok(Command::Coordinates),
            10 => Ok(Command::Set),
            11 => Ok(Command::Data),
            _ => Err(NoCommand),
        }
    }
}

impl Command {
    // How many words it takes.
    #[tactic(auto, unfolding(crate::specs::Taking::words_of))]
    pub fn words(self) -> usize
        ensures value { result ≡ words_of (command_number self) }
        ensures few { result ≤ 11 }
    {
        match self {
            Command::Withdraw => 0,
            Command::PageSize | Command::Data => 1,
            Command::RowOfImage => 2,
            Command::Ask | Command::Pixel | Command::Coordinates | Command::Set => 3,
            Command::Offer => 5,
            Command::ComposeRows => 8,
            Command::CheckRows => 10,
            Command::Open => 11,
        }
    }
}

// A command at a byte of the script, with the N words that it takes. Whoever makes one proves that they are there.
#[derive(Clone, Copy)]
pub struct Words<'a, const N: usize> {
    pub script: &'a [u8],
    pub at: usize,
    pub ghost there: { There script.now at N },
}

impl<'a, const N: usize> Words<'a, N> {
    // Word number i; 0 names the command.
    pub fn word(self, i: usize) -> u32
        requires { i ≤ N }
        ensures { result ≡ word self.entry.script.now self.entry.at i }
    {
        words::word_at(self.script, self.at + 4 * i)
    }
}
