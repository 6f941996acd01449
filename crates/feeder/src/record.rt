// What stands at a place of the waiting bytes and those of a piece, taken as one list.
ghost use Rattle.std.specs.Prelude.{◌≡◌, ◌++◌, ◌+◌, ◌<◌, length, drop, get_or};
ghost use Rattle.feeder.specs.Record.{head_of};
ghost use Rattle.feeder.specs.Promises.{head_for, joined};

// The two bytes of the mark.
pub const FIRST_MARK: u8 = 0x45;

pub const SECOND_MARK: u8 = 0x57;

// Where a record's clock, its command's length and its command start.
pub const CLOCK_AT: usize = 2;

pub const LENGTH_AT: usize = 10;

pub const COMMAND_AT: usize = 12;

// The longest command, and the longest record.
pub const COMMAND_MOST: usize = 1024;

pub const RECORD_MOST: usize = COMMAND_AT + COMMAND_MOST;

// The command's length is two bytes, the low one first.
const LENGTH_HIGH_AT: usize = LENGTH_AT + 1;

// A byte to skip, a record with a command of so many bytes, or too few bytes to tell.
#[derive(Clone, Copy)]
pub enum Head {
    Skip,
    Whole(usize),
    Wait,
}

// The bytes that wait and those of a piece, taken as one list.
#[derive(Clone, Copy)]
pub struct Joined<'a> {
    pub waiting: &'a [u8],
    pub piece: &'a [u8],
}

impl Joined<'_> {
    pub fn len(&self) -> usize
        ensures { result ≡ length (joined self.now) }
    {
        self.waiting.len() + self.piece.len()
    }

    // Byte i of the list.
    fn byte_at(&self, i: usize) -> u8
        requires { i < length (joined self.now) }
        ensures { result ≡ get_or (joined self.now) i 0 }
    {
        let before = self.waiting.len();
        if i < before {
            return self.waiting[i];
        }
        self.piece[i - before]
    }

    // What stands at a place of the list.
    #[tactic(auto, using(crate::proofs::RecordTests::tells_head))]
    pub fn head_at(&self, at: usize) -> Head
        requires { at < length (joined self.now) }
        ensures { result ≡ head_for (head_of (drop at (joined self.now))) }
    {
        if self.byte_at(at) != FIRST_MARK {
            return Head::Skip;
        }
        let left = self.len() - at;
        if left < 2 {
            return Head::Wait;
        }
        if self.byte_at(at + 1) != SECOND_MARK {
            return Head::Skip;
        }
        if left < COMMAND_AT {
            return Head::Wait;
        }
        let low = self.byte_at(at + LENGTH_AT) as usize;
        let high = self.byte_at(at + LENGTH_HIGH_AT) as usize;
        let size = low + 256 * high;
        if !(1..=COMMAND_MOST).contains(&size) {
            return Head::Skip;
        }
        if left < COMMAND_AT + size {
            return Head::Wait;
        }
        Head::Whole(size)
    }
}
