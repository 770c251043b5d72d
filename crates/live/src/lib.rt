// The live tableau: rows proposed and withdrawn in class, kept in a lent list of records in order of arrival, and the leader among them.
#![tactic(auto)]

ghost use Rattle.std.specs.Prelude.{◌≡◌, ◌-◌, ◌<◌, ◌≤◌, position};
ghost use Rattle.basics.specs.Words.{true, not, length, take};
ghost use Rattle.refusals.specs.Refusals.{checked_number, refuse};
ghost use Rattle.ranking.specs.Rankings.{is_ranking};
ghost use Rattle.live.specs.Rows.{zero_row, has_id, present, counted_of, led, lead_of};
ghost use Rattle.live.specs.Steps.{closing, putting_in, taking_out, better_of, leader_down};
ghost use Rattle.live.specs.Calls.{Adds, Removes, leading};

use ranking::Profile;
use refusals::Refusal;

// A row: its id, and the profile that was handed in.
#[repr(C)]
#[derive(Clone, Copy)]
pub struct Row {
    pub id: u16,
    pub profile: Profile,
}

// What a freed record is set to, and what stands for no leader.
fn zero_row() -> Row
    ensures { result ≡ zero_row }
{
    Row {
        id: 0,
        profile: Profile::zero(),
    }
}

// What adding and removing answer, as one record: the refusal's number, 0 where there is none, and the new row count.
#[derive(Clone, Copy)]
pub struct Counted {
    pub number: u8,
    pub count: usize,
}

impl From<Result<usize, Refusal>> for Counted {
    ghost from_gives = { λ answer counted. counted ≡ counted_of answer };

    fn from(answer: Result<usize, Refusal>) -> Counted
        ensures { result ≡ counted_of answer }
    {
        match answer {
            Ok(count) => Counted { number: 0, count },
            Err(refusal) => Counted {
                number: u8::from(refusal),
                count: 0,
            },
        }
    }
}

// What the leader's call answers, as one record: the refusal's number, 0 where there is none; whether there is a leader; its row.
#[derive(Clone, Copy)]
pub struct Lead {
    pub number: u8,
    pub any: bool,
    pub row: Row,
}

impl From<Result<Option<Row>, Refusal>> for Lead {
    ghost from_gives = { λ answer lead. lead ≡ lead_of answer };

    fn from(answer: Result<Option<Row>, Refusal>) -> Lead
        ensures { result ≡ lead_of answer }
    {
        match answer {
            Ok(Some(row)) => Lead {
                number: 0,
                any: true,
                row,
            },
            Ok(None) => Lead {
                number: 0,
                any: false,
                row: zero_row(),
            },
            Err(refusal) => Lead {
                number: u8::from(refusal),
                any: false,
                row: zero_row(),
            },
        }
    }
}

// The better of two rows under a ranking, the second where neither is better.
fn better(ranking: &[u8], row: Row, best: Row) -> Row
    requires { (is_ranking (length ranking.now) ranking.now ≡ true) × (length ranking.now ≤ 6) }
    ensures { result ≡ better_of ranking.now row best }
{
    if live_checks::takes_lead(ranking, row.profile, best.profile) {
        return row;
    }
    best
}

// The place of the first row with an id.
fn find(rows: &[Row], id: u16) -> Option<usize>
    ensures { result ≡ position (has_id id) rows.now }
{
    rows.iter().position(|row| row.id == id)
}

// Moves the rows behind a place up, to the last, whose record is set to zeros. The library has no `copy_within`.
fn close_gap(rows: &mut [Row], at: usize, last: usize)
    requires { (at ≤ last) × (last < length rows.old) }
    ensures { rows.new ≡ closing at last rows.old }
{
    for i in at..last {
        rows[i] = rows[i + 1];
    }
    rows[last] = zero_row();
}

// Puts a row behind the others unless its id is present: 24.
fn put_in(rows: &mut [Row], count: usize, row: Row) -> Result<(), Refusal>
    requires { count < length rows.old }
    ensures { (rows.new ≡ putting_in count rows.old row) × (checked_number result ≡ refuse 24 (not (present row.id (take count rows.old)))) }
{
    let at = find(&rows[..count], row.id).unwrap_or(count);
    live_checks::check_absent(at, count)?;
    rows[count] = row;
    Ok(())
}

// Takes the first row with an id out, if there is one: 24.
fn take_out(rows: &mut [Row], count: usize, id: u16) -> Result<(), Refusal>
    requires { count ≤ length rows.old }
    ensures { (rows.new ≡ taking_out id count rows.old) × (checked_number result ≡ refuse 24 (present id (take count rows.old))) }
{
    let at = find(&rows[..count], id).unwrap_or(count);
    live_checks::check_present(at, count)?;
    close_gap(rows, at, count - 1);
    Ok(())
}

// The best of some rows, the earliest among equals.
fn foremost(ranking: &[u8], count: usize, rows: &[Row]) -> Row
    requires { ((is_ranking (length ranking.now) ranking.now ≡ true) × (length ranking.now ≤ 6)) × ((0 < count) × (count ≤ length rows.now)) }
    ensures { led result ≡ leader_down ranking.now (take count rows.now) }
{
    let mut best = rows[0];
    for &row in &rows[1..count] {
        best = better(ranking, row, best);
    }
    best
}

// Adds a row behind the others, and answers the new row count: 1, 7, 23, 24.
pub fn add(
    machines: u8,
    ranking: &[u8],
    count: usize,
    rows: &mut [Row],
    row: Row,
) -> Result<usize, Refusal>
    ensures { Adds machines ranking.now count rows.old rows.new row (counted_of result) }
{
    live_checks::check_room(machines, ranking, count, rows.len())?;
    put_in(rows, count, row)?;
    Ok(count + 1)
}

// Takes the first row with an id out, and answers the new row count: 1, 7, 23, 24.
pub fn remove(
    machines: u8,
    ranking: &[u8],
    count: usize,
    rows: &mut [Row],
    id: u16,
) -> Result<usize, Refusal>
    ensures { Removes machines ranking.now count rows.old rows.new id (counted_of result) }
{
    live_checks::check_rows(machines, ranking, count, rows.len())?;
    take_out(rows, count, id)?;
    Ok(count - 1)
}

// The row with the best profile under the ranking, the earliest among equals, or none: 1, 7, 23.
pub fn leader(
    machines: u8,
    ranking: &[u8],
    count: usize,
    rows: &[Row],
) -> Result<Option<Row>, Refusal>
    ensures { lead_of result ≡ leading machines ranking.now count rows.now }
{
    live_checks::check_rows(machines, ranking, count, rows.len())?;
    if count == 0 {
        return Ok(None);
    }
    Ok(Some(foremost(ranking, count, rows)))
}
