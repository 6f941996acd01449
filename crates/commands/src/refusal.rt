// Why a command is refused, and the line that says so.
ghost use Rattle.std.specs.Prelude.{◌≡◌, ◌++◌, ◌≤◌, length};
ghost use Rattle.wire.specs.Words.{crlf};
ghost use Rattle.wire.specs.Promises.{Laid};
ghost use Rattle.commands.specs.Refusal.{error_line};
ghost use Rattle.commands.specs.ParsePromises.{refusal_number};

use wire::replies::put_line;

// The refusals, in the order of their numbers: 10 to 18, and 20 to 24.
#[derive(Clone, Copy)]
pub enum Refusal {
    Protocol,
    ClockOutOfRange,
    UnknownCommand,
    WrongArgumentCount,
    TooLong,
    Syntax,
    NotInteger,
    InvalidVersion,
    InvalidExpireTime,
    StaleVersion,
    HashNotInteger,
    SumOverflow,
    VersionOverflow,
    StoreFull,
}

// The line of a refusal, without its end.
fn line(refusal: Refusal) -> &'static [u8]
    ensures { result.now ++ crlf ≡ error_line (refusal_number refusal) }
{
    match refusal {
        Refusal::Protocol => b"-ERR protocol",
        Refusal::ClockOutOfRange => b"-ERR clock out of range",
        Refusal::UnknownCommand => b"-ERR unknown command",
        Refusal::WrongArgumentCount => b"-ERR wrong number of arguments",
        Refusal::TooLong => b"-ERR too long",
        Refusal::Syntax => b"-ERR syntax error",
        Refusal::NotInteger => b"-ERR value is not an integer or out of range",
        Refusal::InvalidVersion => b"-ERR invalid version",
        Refusal::InvalidExpireTime => b"-ERR invalid expire time",
        Refusal::StaleVersion => b"-ERR update version is stale",
        Refusal::HashNotInteger => b"-ERR hash value is not an integer",
        Refusal::SumOverflow => b"-ERR increment or decrement would overflow",
        Refusal::VersionOverflow => b"-ERR version overflow",
        Refusal::StoreFull => b"-ERR store is full",
    }
}

// Writes the line of a refusal, and answers its length.
pub fn put_error(refusal: Refusal, out: &mut [u8]) -> usize
    requires { length (error_line (refusal_number refusal)) ≤ length out.old }
    ensures { Laid (error_line (refusal_number refusal)) out.old out.new result }
{
    put_line(line(refusal), out)
}
