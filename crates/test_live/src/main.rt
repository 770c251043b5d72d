// Tries the live tableau under K = 2 and the ranking 1, 0, over lists of 34 and of 3 records whose unused records are all 7s: each refusal with its neighbour that passes, the order of the checks, 32 rows
// and a 33rd, an id that stands twice, equal profiles, removals at every place. A line for each call: what it is, the number, the row count; behind the bar the first records, each as its id, its first two counts
// and its last one, which is kept and not looked at.
#![tactic(auto)]

ghost use Rattle.std.specs.Prelude.{◌≡◌, ◌++◌, ◌≤◌, take, drop};
ghost use Rattle.live.specs.Rows.{counted_of, lead_of};
ghost use Rattle.live.specs.Calls.{adding, added_list, removing, removed_list, leading};

use live::Row;
use ranking::Profile;
use refusals::Refusal;
use test_calls::printing::{write, write_number};
use test_calls::writing::number_of;

// A list of 34 records, and what the last call on it answered. A call is lent the first so many of them: 34, or 3.
#[derive(Clone, Copy)]
pub struct Board {
    pub rows: [Row; 34],
    pub answer: Result<usize, Refusal>,
}

// The calls on the first records of a list.
fn add_to(
    board: Board,
    records: usize,
    machines: u8,
    ranking: &[u8],
    count: usize,
    row: Row,
) -> Board
    requires { records ≤ 34 }
    ensures { (counted_of result.answer ≡ adding machines ranking.now count (take records board.rows) row) × (result.rows ≡ added_list machines ranking.now count (take records board.rows) row ++ drop records board.rows) }
{
    let mut rows = board.rows;
    let answer = live::add(machines, ranking, count, &mut rows[..records], row);
    Board { rows, answer }
}

fn remove_from(
    board: Board,
    records: usize,
    machines: u8,
    ranking: &[u8],
    count: usize,
    id: u16,
) -> Board
    requires { records ≤ 34 }
    ensures { (counted_of result.answer ≡ removing machines ranking.now count (take records board.rows) id) × (result.rows ≡ removed_list machines ranking.now count (take records board.rows) id ++ drop records board.rows) }
{
    let mut rows = board.rows;
    let answer = live::remove(machines, ranking, count, &mut rows[..records], id);
    Board { rows, answer }
}

fn leader_of(
    board: Board,
    records: usize,
    machines: u8,
    ranking: &[u8],
    count: usize,
) -> Result<Option<Row>, Refusal>
    requires { records ≤ 34 }
    ensures { lead_of result ≡ leading machines ranking.now count (take records board.rows) }
{
    let rows = board.rows;
    live::leader(machines, ranking, count, &rows[..records])
}

// A row with two counts, and one behind them that is not looked at.
fn row(id: u16, first: u16, second: u16, last: u16) -> Row {
    let counts = [first, second, 0, 0, 0, last];
    Row {
        id,
        profile: Profile { counts },
    }
}

// What an unused record holds.
fn unused() -> Row {
    row(7, 7, 7, 7)
}

fn new() -> Board {
    Board {
        rows: [unused(); 34],
        answer: Ok(0),
    }
}

fn row_at(board: Board, at: usize) -> Row {
    let rows = board.rows;
    if at >= 34 {
        return unused();
    }
    rows[at]
}

// A list whose first three records are these.
fn three(first: Row, second: Row, third: Row) -> Board {
    let board = new();
    let mut rows = board.rows;
    let answer = board.answer;
    rows[0] = first;
    rows[1] = second;
    rows[2] = third;
    Board { rows, answer }
}

fn write_row(rt: &impl Print, row: Row) {
    let profile = row.profile;
    write(rt, b" ");
    write_number(rt, row.id as u64);
    write(rt, b":");
    write_number(rt, profile.count(0) as u64);
    write(rt, b",");
    write_number(rt, profile.count(1) as u64);
    write(rt, b",");
    write_number(rt, profile.count(5) as u64);
}

fn write_answer(rt: &impl Print, answer: Result<usize, Refusal>) {
    write(rt, b": ");
    write_number(rt, u64::from(number_of(&answer)));
    write(rt, b" ");
    write_number(rt, answer.unwrap_or(0) as u64);
    write(rt, b" |");
}

// The answer and the first three records.
fn show_three(rt: &impl Print, board: Board) {
    let answer = board.answer;
    write_answer(rt, answer);
    write_row(rt, row_at(board, 0));
    write_row(rt, row_at(board, 1));
    write_row(rt, row_at(board, 2));
}

// The line of a call on a list of 34, with five records, and on one of 3.
fn show(rt: &impl Print, board: Board) {
    show_three(rt, board);
    write_row(rt, row_at(board, 3));
    write_row(rt, row_at(board, 4));
    write(rt, b"\n");
}

fn show_short(rt: &impl Print, board: Board) {
    show_three(rt, board);
    write(rt, b"\n");
}

fn show_lead(rt: &impl Print, lead: Result<Option<Row>, Refusal>) {
    write(rt, b": ");
    write_number(rt, u64::from(number_of(&lead)));
    match lead {
        Ok(Some(row)) => {
            write(rt, b" leads");
            write_row(rt, row);
        }
        _ => {
            write(rt, b" none");
            write_row(rt, row(0, 0, 0, 0));
        }
    }
    write(rt, b"\n");
}

fn add(rt: &impl Print, board: Board, count: usize, row: Row) -> Board {
    let next = add_to(board, 34, 2, b"\x01\x00", count, row);
    write(rt, b"add ");
    write_number(rt, row.id as u64);
    show(rt, next);
    next
}

fn remove(rt: &impl Print, board: Board, count: usize, id: u16) -> Board {
    let next = remove_from(board, 34, 2, b"\x01\x00", count, id);
    write(rt, b"remove ");
    write_number(rt, id as u64);
    show(rt, next);
    next
}

fn lead(rt: &impl Print, board: Board, count: usize) {
    write(rt, b"leader of ");
    write_number(rt, count as u64);
    show_lead(rt, leader_of(board, 34, 2, b"\x01\x00", count));
}

// An empty table, the lowest and the highest id, an id that is present, and an id added again.
fn ids(rt: &impl Print) {
    write(rt, b"- ids\n");
    let empty = new();
    lead(rt, empty, 0);
    let none = remove(rt, empty, 0, 0);
    let one = add(rt, none, 0, row(0, 1, 1, 5));
    let two = add(rt, one, 1, row(65535, 0, 2, 6));
    let again = add(rt, two, 2, row(0, 9, 9, 9));
    let gone = remove(rt, again, 2, 0);
    let anew = add(rt, gone, 1, row(0, 3, 1, 8));
    lead(rt, anew, 2);
}

// The ranking decides, and among equals the earliest arrival leads; the last count is not looked at.
fn leaders(rt: &impl Print) {
    write(rt, b"- leaders\n");
    let table = three(row(1, 0, 2, 0), row(2, 4, 1, 9), row(3, 4, 1, 0));
    lead(rt, table, 1);
    lead(rt, table, 3);
    let less = remove(rt, table, 3, 2);
    lead(rt, less, 2);
}

// The first, the middle and the last row of three, and an id that stands twice.
fn removals(rt: &impl Print) {
    write(rt, b"- removals\n");
    let table = three(row(1, 1, 0, 0), row(2, 2, 0, 0), row(3, 3, 0, 0));
    remove(rt, table, 3, 1);
    remove(rt, table, 3, 2);
    remove(rt, table, 3, 3);
    remove(rt, table, 3, 4);
    remove(rt, table, 2, 3);
    let twice = three(row(5, 1, 0, 0), row(6, 2, 0, 0), row(5, 3, 0, 0));
    let once = remove(rt, twice, 3, 5);
    remove(rt, once, 2, 5);
}

// A table of 32 rows.
fn full() -> Board {
    let mut board = new();
    for i in 0..32usize {
        board = add_to(board, 34, 2, b"\x01\x00", i, row(i as u16, 40, 40, 0));
    }
    board
}

// 32 rows, and a 33rd; row counts past what the list can have.
fn many(rt: &impl Print) {
    write(rt, b"- many\n");
    let board = full();
    show(rt, board);
    add(rt, board, 32, row(99, 0, 0, 0));
    add(rt, board, 31, row(99, 0, 0, 0));
    lead(rt, board, 32);
    lead(rt, board, 33);
    remove(rt, board, 32, 31);
    remove(rt, board, 33, 31);
}

fn call(rt: &impl Print, machines: u8, ranking: &[u8], count: usize, id: u16) {
    let board = three(row(1, 1, 0, 0), row(2, 2, 0, 0), row(3, 3, 0, 0));
    write(rt, b"add");
    show(
        rt,
        add_to(board, 34, machines, ranking, count, row(id, 0, 0, 0)),
    );
    write(rt, b"remove");
    show(rt, remove_from(board, 34, machines, ranking, count, id));
    write(rt, b"leader");
    show_lead(rt, leader_of(board, 34, machines, ranking, count));
}

// 1 before 7 before 23 before 24.
fn order(rt: &impl Print) {
    write(rt, b"- order\n");
    call(rt, 0, b"\x01\x01", 40, 1);
    call(rt, 7, b"\x01\x00", 3, 4);
    call(rt, 2, b"\x01\x01", 40, 1);
    call(rt, 2, b"\x01", 3, 4);
    call(rt, 2, b"\x01\x00", 40, 1);
    call(rt, 2, b"\x01\x00", 3, 1);
    call(rt, 2, b"\x01\x00", 3, 4);
}

// A list shorter than 32.
fn few_records(rt: &impl Print) {
    write(rt, b"- a list of three\n");
    let one = add_to(new(), 3, 2, b"\x01\x00", 0, row(1, 1, 1, 0));
    show_short(rt, one);
    let two = add_to(one, 3, 2, b"\x01\x00", 1, row(2, 0, 1, 0));
    show_short(rt, two);
    let full = add_to(two, 3, 2, b"\x01\x00", 2, row(3, 0, 1, 0));
    show_short(rt, full);
    show_short(rt, add_to(full, 3, 2, b"\x01\x00", 3, row(4, 0, 0, 0)));
    show_lead(rt, leader_of(full, 3, 2, b"\x01\x00", 3));
    show_lead(rt, leader_of(full, 3, 2, b"\x01\x00", 4));
    show_short(rt, remove_from(full, 3, 2, b"\x01\x00", 3, 2));
    show_short(rt, remove_from(full, 3, 2, b"\x01\x00", 4, 2));
}

fn main(rt: HostRuntime) {
    ids(&rt);
    leaders(&rt);
    removals(&rt);
    many(&rt);
    order(&rt);
    few_records(&rt);
}
