// The file `closed`, from its bytes to the list of closed days: specs/ClosedFile.
#![tactic(auto)]

ghost use Rattle.std.specs.Prelude.{◌≡◌, Some, None, cond};
ghost use Rattle.closedfile.specs.ClosedFile.{is_formed, days_in, broken_list, list_in, held};
ghost use Rattle.closedfile.specs.Reading.{day_in};

use duedays::is_list_allowed;
use duedays::limits::{LAST_DUE_DAY, MOST_LISTED};

// The closed days from the front, and how many they are.
#[derive(Clone, Copy)]
pub struct ClosedDays {
    pub count: usize,
    pub days: [u16; MOST_LISTED],
}

// No file of the form is longer: 400 lines of four digits and LF.
pub const LONGEST_FILE: usize = MOST_LISTED * (DIGITS + 1);

// The digits of a day.
const DIGITS: usize = 4;

// The list of closed days that a file has.
pub fn list_in(file: &[u8]) -> ClosedDays
    ensures { result ≡ held (list_in file.now) }
{
    days_in(file).unwrap_or_else(broken_list)
}

// The closed days of a file of the form.
fn days_in(file: &[u8]) -> Option<ClosedDays>
    ensures { result ≡ cond (is_formed file.now) (Some (held (days_in file.now))) None }
{
    let mut days = [0u16; MOST_LISTED];
    let mut count: usize = 0;
    for line in file.chunks(DIGITS + 1) {
        let full = count == MOST_LISTED;
        if full {
            return None;
        }
        days[count] = day_in(line)?;
        count += 1;
    }
    is_list_allowed(&days[..count]).then_some(ClosedDays { count, days })
}

// A list that breaks the bounds.
fn broken_list() -> ClosedDays
    ensures { result ≡ held broken_list }
{
    let mut days = [0u16; MOST_LISTED];
    days[0] = LAST_DUE_DAY + 1;
    ClosedDays { count: 1, days }
}

// The day of the line that some characters begin with: four digits, and then LF or the end.
fn day_in(line: &[u8]) -> Option<u16>
    ensures { result ≡ day_in line.now }
{
    let digits = line.get(..DIGITS)?;
    if *line.get(DIGITS).unwrap_or(&b'\n') != b'\n' {
        return None;
    }
    Some(frames::number(digits)? as u16)
}
