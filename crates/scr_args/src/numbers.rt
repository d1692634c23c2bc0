//! The numbers of the command line: digits alone, of which those in front may be 0.
ghost use Rattle.std.specs.Prelude.{◌≡◌, ◌≤◌, ◌<◌, ◌^◌, IfSome};
ghost use Rattle.std.specs.Char.{is_ascii_digit};
ghost use Rattle.std.specs.List.{list_all};
ghost use Rattle.scr_args.specs.Numbers as spelled;

/// The most digits of a number of workers.
const MAX_WORKER_DIGITS: usize = 2;

/// The greatest number of workers.
const MAX_WORKERS: u64 = 64;

/// The most digits of the number of a made book.
const MAX_MADE_DIGITS: usize = 18;

/// A number of workers: one or two digits that stand for 1 to 64.
pub fn read_workers(text: &str) -> Option<u32>
    ensures { result ≡ spelled.workers_in text.now }
{
    let number = read_number(text, MAX_WORKER_DIGITS)?;
    if 1 <= number && number <= MAX_WORKERS {
        Some(number as u32)
    } else {
        None
    }
}

/// The number of a made book: 1 to 18 digits.
pub fn read_made(text: &str) -> Option<u64>
    ensures { result ≡ spelled.made_in text.now }
{
    read_number(text, MAX_MADE_DIGITS)
}

/// What at least one and at most so many digits stand for.
fn read_number(text: &str, most: usize) -> Option<u64>
    requires few { most ≤ 19 }
    ensures value { result ≡ spelled.number_in most text.now }
{
    if !is_number(text, most) {
        return None;
    }
    text.parse().ok()
}

fn is_number(text: &str, most: usize) -> bool
    ensures { result ≡ spelled.is_number most text.now }
{
    let digits = text.as_bytes();
    1 <= digits.len() && digits.len() <= most && all_digits(digits)
}

fn all_digits(text: &[u8]) -> bool
    ensures { result ≡ list_all is_ascii_digit text.now }
{
    text.iter().all(|byte| byte.is_ascii_digit())
}
