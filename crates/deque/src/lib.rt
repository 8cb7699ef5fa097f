// The calls for C and Rust: tables, lists and out slices as a pointer and a length, answers as numbers.
#![tactic(auto)]

ghost use Rattle.std.specs.Prelude.{◌≡◌, ◌≤◌, length};
ghost use Rattle.tag.specs.Tags.{largest_tag};
ghost use Rattle.machine.specs.Values.{stored_of};
ghost use Rattle.machine.specs.Answers.{reply_number, payload_of, dispatch_payload_of};
ghost use Rattle.machine.specs.Results.{refusal_number, answered, dispatch_in, replied, ran_in, reading_in};
ghost use Rattle.machine.specs.Calls as calls;
ghost use Rattle.call_push_by_list.specs.Replies.{by_list};
ghost use Rattle.machine.specs.Lent.{begin_lent};
ghost use Rattle.machine.specs.Snapshots.{take_snapshot, put_back};
ghost use Rattle.deque.specs.Exports.{pair_of, answer_number, dispatch_number, ran_number, reading_number, list_number};
ghost use Rattle.deque.specs.Exports.{fresh_number, fed_number, checked_number, by_list_number, library_version};
ghost use Rattle.airline_list.specs.Outcomes.{checked_of, flaw_number};
ghost use Rattle.airline_list.specs.Lists.{verdict, checked};
ghost use Rattle.table_record.specs.Coded.{record_of};
ghost use Rattle.machine.specs.PushByList.{push_by_list};
ghost use Rattle.machine.specs.Sheets as sheets;
ghost use Rattle.tag_lists.specs.TagLists.{answer_of, read_tags, write_tags};
ghost use Rattle.window.specs.Window as windows;

use airline_list::{Fault, check};
use answers::IDLE;
use call_begin::{begin, begin_record};
use call_dispatch::{dispatch, dispatches};
use call_push_by_list::{ListRefusal, push_by_list};
use call_read::read;
use call_run::{panel, run};
use call_sheet::sheet;
use call_snapshot::{put, take};
use call_start::start;
use call_tick::{tick, ticks};
use machine::answer::{Answer, Ran};
use machine::refusal::Refusal;
use table_record::Task;
use table_values::of_words;
use tag_lists::{ListError, read_tags, write_tags};
use window::{WindowError, feed, fresh};

// Two words in one number of 64 bits.
fn pair(high: u32, low: u32) -> u64
    ensures { result ≡ pair_of high low }
{
    (high as u64) * 4_294_967_296 + (low as u64)
}

// Of the library that is linked: a caller's header may be of another.
const TABLE_FORMAT: u32 = 4;

const VERSION_NUMBER: u32 = 6_006_000;

// The format of the library's tables, and its version.
#[unsafe(no_mangle)]
pub extern "C" fn lane_version() -> u64
    ensures { result ≡ library_version }
{
    pair(TABLE_FORMAT, VERSION_NUMBER)
}

// What a kind is multiplied with: 2^40.
const KIND: u64 = 1_099_511_627_776;

// The kind of a refused tick.
const REFUSED: u64 = 7;

// Kept: a function for each kind of answer. Each is an equation with a definition of its own, and a trait of refusals with
// their halves would be longer than the arms that it saved.

// One function and not inlined: a table of the numbers stands in it, once for all calls.
#[inline(never)]
fn number(refusal: Refusal) -> u32
    ensures { result ≡ refusal_number refusal }
{
    refusal.number()
}

// The kind times 2^40 plus the tag, or plus the number of a refusal.
#[inline(never)]
fn answer_number(ticked: Result<Answer, Refusal>) -> u64
    requires { payload_of (answered ticked) ≤ largest_tag }
    ensures { result ≡ answer_number (answered ticked) }
{
    match ticked {
        Ok(a) => (a.kind() as u64) * KIND + a.payload(),
        Err(refusal) => REFUSED * KIND + number(refusal) as u64,
    }
}

// The same of the tick that a dispatch made, or the kind of "idle".
fn dispatch_number(dispatched: Result<Option<Answer>, Refusal>) -> u64
    requires { dispatch_payload_of (dispatch_in dispatched) ≤ largest_tag }
    ensures { result ≡ dispatch_number (dispatch_in dispatched) }
{
    match dispatched {
        Ok(Some(a)) => answer_number(Ok(a)),
        Ok(None) => (IDLE as u64) * KIND,
        Err(refusal) => answer_number(Err(refusal)),
    }
}

fn reply_number(reply: Result<(), Refusal>) -> u32
    ensures { result ≡ reply_number (replied reply) }
{
    match reply {
        Ok(()) => 0,
        Err(refusal) => number(refusal),
    }
}

fn ran_number(ran: Ran) -> u64
    ensures { result ≡ ran_number (ran_in ran) }
{
    match ran.refusal {
        None => pair(0, ran.made),
        Some(refusal) => pair(number(refusal), ran.made),
    }
}

fn reading_number(read: Result<u32, Refusal>) -> u64
    ensures { result ≡ reading_number (reading_in read) }
{
    match read {
        Ok(bags) => pair(0, bags),
        Err(unread) => pair(number(unread), 0),
    }
}

fn list_number(read: Result<u32, ListError>) -> u64
    ensures { result ≡ list_number (answer_of read) }
{
    match read {
        Ok(tags) => pair(0, tags),
        Err(refusal) => pair(refusal.number(), refusal.place()),
    }
}

fn fed_number(fed: Result<u32, WindowError>) -> u64
    ensures { result ≡ fed_number (windows.answer_of fed) }
{
    match fed {
        Ok(swaps) => pair(0, swaps),
        Err(refusal) => pair(refusal.number(), 0),
    }
}

// Not inlined: set into the test of a list, the fault would be read from memory also where there is none.
#[inline(never)]
fn fault_number(fault: Fault) -> u64
    ensures { result ≡ pair_of (flaw_number fault.flaw) fault.line }
{
    pair(fault.flaw.number(), fault.line)
}

fn checked_number(c: Result<(), Fault>) -> u64
    ensures { result ≡ checked_number (checked_of c) }
{
    match c {
        Ok(()) => 0,
        Err(fault) => fault_number(fault),
    }
}

fn by_list_number(reply: Result<(), ListRefusal>) -> u64
    ensures { result ≡ by_list_number (by_list reply) }
{
    match reply {
        Ok(()) => 0,
        Err(ListRefusal::List(fault)) => fault_number(fault),
        Err(ListRefusal::Begin(refusal)) => pair(number(refusal), 0),
    }
}

// 0, or the refusal.
#[unsafe(no_mangle)]
pub extern "C" fn lane_start(
    table: &mut [u32],
    slots: u32,
    tasks: u32,
    growth: u32,
    lanes: u32,
) -> u32
    ensures value { result ≡ reply_number (calls.start table.old slots tasks growth lanes).reply }
    ensures table_after { table.new ≡ (calls.start table.old slots tasks growth lanes).words }
{
    reply_number(start(table, slots, tasks, growth, lanes))
}

// 0, or the refusal.
#[unsafe(no_mangle)]
pub extern "C" fn lane_begin(
    table: &mut [u32],
    task: u32,
    lane: u32,
    operation: u32,
    side: u32,
    digit: u32,
    low: u32,
) -> u32
    ensures value { result
        ≡ reply_number (calls.begin table.old task lane operation side (stored_of digit low)).reply }
    ensures table_after { table.new
        ≡ (calls.begin table.old task lane operation side (stored_of digit low)).words }
{
    reply_number(begin(table, task, lane, operation, side, of_words(digit, low)))
}

// 2026-14: a begin over the record that a panel lends, to be changed where it is; 0, or the refusal. The table is only
// read.
#[unsafe(no_mangle)]
pub extern "C" fn lane_begin_record(
    own: &mut Task,
    table: &[u32],
    task: u32,
    lane: u32,
    operation: u32,
    side: u32,
    digit: u32,
    low: u32,
) -> u32
    ensures { let before = record_of own.old in
        let one = begin_lent table.now before task lane operation side (stored_of digit low) in
        (result ≡ reply_number one.reply) × (record_of own.new ≡ one.words) }
{
    let argument = of_words(digit, low);
    match begin_record(*own, table, task, lane, operation, side, argument) {
        Ok(begun) => {
            *own = begun;
            0
        }
        Err(refused) => number(refused),
    }
}

// The kind times 2^40 plus the tag or 0; kind 7 for a refusal, with its number.
#[unsafe(no_mangle)]
pub extern "C" fn lane_tick(table: &mut [u32], task: u32, hint: u32) -> u64
    ensures value { result ≡ answer_number (calls.tick table.old task hint).answer }
    ensures table_after { table.new ≡ (calls.tick table.old task hint).words }
{
    answer_number(tick(table, task, hint))
}

// As the last of the ticks made: until one does not go on, or so many.
#[unsafe(no_mangle)]
pub extern "C" fn lane_ticks(table: &mut [u32], task: u32, hint: u32, times: u32) -> u64
    ensures value { result ≡ answer_number (calls.ticks times table.old task hint).answer }
    ensures table_after { table.new ≡ (calls.ticks times table.old task hint).words }
{
    answer_number(ticks(table, task, hint, times))
}

// As a tick, of the next busy task after the one last dispatched; kind 8 where no task is busy.
#[unsafe(no_mangle)]
pub extern "C" fn lane_dispatch(table: &mut [u32], hint: u32) -> u64
    ensures value { result ≡ dispatch_number (calls.dispatch table.old hint).answer }
    ensures table_after { table.new ≡ (calls.dispatch table.old hint).words }
{
    dispatch_number(dispatch(table, hint))
}

// As the last of the dispatches made: until one does not go on, or so many.
#[unsafe(no_mangle)]
pub extern "C" fn lane_dispatches(table: &mut [u32], hint: u32, times: u32) -> u64
    ensures value { result ≡ dispatch_number (calls.dispatches times table.old hint).answer }
    ensures table_after { table.new ≡ (calls.dispatches times table.old hint).words }
{
    dispatch_number(dispatches(table, hint, times))
}

// The refusal that stopped the run, or 0, times 2^32, plus the ticks made.
#[unsafe(no_mangle)]
pub extern "C" fn lane_run(table: &mut [u32], list: &[u32], answers: &mut [u32]) -> u64
    ensures value { result ≡ ran_number (calls.run table.old list.now answers.old).ran }
    ensures table_after { table.new
        ≡ (calls.run table.old list.now answers.old).words }
    ensures answers_after { answers.new
        ≡ (calls.run table.old list.now answers.old).answers }
{
    ran_number(run(table, list, answers))
}

// The same for the panel's list.
#[unsafe(no_mangle)]
pub extern "C" fn lane_panel(table: &mut [u32], list: &[u32], answers: &mut [u32]) -> u64
    ensures value { result
        ≡ ran_number (calls.panel table.old list.now answers.old).ran }
    ensures table_after { table.new
        ≡ (calls.panel table.old list.now answers.old).words }
    ensures answers_after { answers.new
        ≡ (calls.panel table.old list.now answers.old).answers }
{
    ran_number(panel(table, list, answers))
}

// The count of the lane's tags, or the refusal times 2^32.
#[unsafe(no_mangle)]
pub extern "C" fn lane_read(table: &[u32], lane: u32, out: &mut [u32]) -> u64
    ensures value { result ≡ reading_number (calls.read table.now lane out.old).reading }
    ensures out_after { out.new ≡ (calls.read table.now lane out.old).out }
{
    reading_number(read(table, lane, out))
}

// 2026-10: a snapshot of the table; 0, or the refusal.
#[unsafe(no_mangle)]
pub extern "C" fn lane_take(table: &[u32], snapshot: &mut [u32]) -> u32
    ensures value { result ≡ reply_number (take_snapshot table.now snapshot.old).reply }
    ensures snapshot_after { snapshot.new ≡ (take_snapshot table.now snapshot.old).words }
{
    reply_number(take(table, snapshot))
}

// The table that a snapshot puts back; 0, or the refusal.
#[unsafe(no_mangle)]
pub extern "C" fn lane_put(snapshot: &[u32], table: &mut [u32]) -> u32
    ensures value { result ≡ reply_number (put_back snapshot.now table.old).reply }
    ensures table_after { table.new ≡ (put_back snapshot.now table.old).words }
{
    reply_number(put(snapshot, table))
}

// 2026-05: the number of the tags read, or the refusal times 2^32, plus the place of 18.
#[unsafe(no_mangle)]
pub extern "C" fn lane_tags_read(bytes: &[u8], words: &mut [u32]) -> u64
    ensures value { result ≡ list_number (read_tags bytes.now words.old).answer }
    ensures words_after { words.new ≡ (read_tags bytes.now words.old).out }
{
    list_number(read_tags(bytes, words))
}

// The same for the tags written.
#[unsafe(no_mangle)]
pub extern "C" fn lane_tags_write(words: &[u32], bytes: &mut [u8]) -> u64
    ensures value { result ≡ list_number (write_tags words.now bytes.old).answer }
    ensures bytes_after { bytes.new ≡ (write_tags words.now bytes.old).out }
{
    list_number(write_tags(words, bytes))
}

// 2026-09: a page of a lane on the shift sheet; 0, or the refusal.
#[unsafe(no_mangle)]
pub extern "C" fn lane_sheet(table: &[u32], lane: u32, page: u32, out: &mut [u8]) -> u32
    ensures value { result ≡ reply_number (sheets.sheet table.now lane page out.old).reply }
    ensures out_after { out.new ≡ (sheets.sheet table.now lane page out.old).words }
{
    reply_number(sheet(table, lane, page, out))
}

// 2026-11: a fresh window; 0, or 23.
#[unsafe(no_mangle)]
pub extern "C" fn lane_window(window: &mut [u32], width: u32) -> u32
    ensures value { result ≡ fresh_number (windows.sizes_ok (length window.old) width) }
    ensures window_after { window.new ≡ windows.fresh_leaves window.old width }
{
    match fresh(window, width) {
        Ok(()) => 0,
        Err(refusal) => refusal.number(),
    }
}

// The refusal, or 0, times 2^32, plus the lost swaps among the last W ticks fed.
#[unsafe(no_mangle)]
pub extern "C" fn lane_feed(window: &mut [u32], count: u32, before: u32, after: u32) -> u64
    ensures value { result ≡ fed_number (windows.feed window.old count before after).answer }
    ensures window_after { window.new ≡ (windows.feed window.old count before after).words }
{
    fed_number(feed(window, count, before, after))
}

// 2026-13: the refusal, or 0, times 2^32, plus the faulty line.
#[unsafe(no_mangle)]
pub extern "C" fn lane_list_check(list: &[u8]) -> u64
    ensures { result ≡ checked_number (checked (verdict list.now)) }
{
    checked_number(check(list))
}

// The same for the list, and then the refusal of the begin that it makes, times 2^32.
#[unsafe(no_mangle)]
pub extern "C" fn lane_push_by_list(
    list: &[u8],
    table: &mut [u32],
    task: u32,
    lane: u32,
    digit: u32,
    low: u32,
) -> u64
    ensures value { result ≡ by_list_number
        (push_by_list list.now table.old task lane (stored_of digit low)).answer }
    ensures table_after { table.new
        ≡ (push_by_list list.now table.old task lane (stored_of digit low)).words }
{
    by_list_number(push_by_list(list, table, task, lane, of_words(digit, low)))
}
