// The entries as C functions on numbers, slices and arrays, for C and Rust; include/safl.h declares them.
#![tactic(auto)]

mod circuits;
mod codes;
mod sheets;

ghost use Rattle.std.specs.Prelude.{◌≡◌, ◌%◌, ◌^◌, length};
ghost use Rattle.table.specs.Check.{check_of, operation_counts};
ghost use Rattle.table.specs.Survey.{verdict_of};
ghost use Rattle.list.specs.Tags.{check_with, fill_verdict, filled_tags, bits_set};
ghost use Rattle.exports.specs.Codes.{code_of, counts_code, item_of, item_code};
ghost use Rattle.exports.specs.Answers.{found_code, missing_of};
ghost use Rattle.list.specs.Records.{records_verdict, filled_records};

use list::Record;
use table::{Design, Refusal};

// 0 for accepted, else the refusal's number * 65536 + its place.
fn code(c: Result<Design, Refusal>) -> u32
    ensures { result ≡ code_of (verdict_of c) }
{
    c.map_or_else(codes::short, |_| 0)
}

// Refusals 1 to 9, then 25.
#[unsafe(no_mangle)]
pub extern "C" fn table_check(bytes: &[u8]) -> u32
    ensures { result ≡ code_of (check_of bytes.now) }
{
    code(table::check(bytes))
}

// The fewest children of a primitive with this operation * 65536 + the most; 0 for a byte that is no operation.
#[unsafe(no_mangle)]
pub extern "C" fn table_operation_counts(op: u8) -> u32
    ensures { result ≡ counts_code (operation_counts op) }
{
    let c = table::operation_counts(op);
    (c.low as u32) * 65536 + (c.high as u32)
}

// Fills a tag list with the arbiter list; 10 where its length is another.
#[unsafe(no_mangle)]
pub extern "C" fn list_fill_tags(bytes: &[u8], tags: &mut [u8]) -> u32
    ensures { (result ≡ code_of (fill_verdict bytes.now (length tags.old)))
        × (tags.new ≡ filled_tags bytes.now tags.old) }
{
    code(list::fill_tags(bytes, tags))
}

// The table's refusals, then 10 of a tag list.
#[unsafe(no_mangle)]
pub extern "C" fn list_check_tags(bytes: &[u8], tags: &[u8]) -> u32
    ensures { result ≡ code_of (check_with bytes.now tags.now) }
{
    code(list::check_tags(bytes, tags))
}

// The lowest listed call without a tag, or none, after the table's refusals and 10; a start that gets past 11 is refused 26 there.
#[unsafe(no_mangle)]
pub extern "C" fn list_missing(bytes: &[u8], tags: &[u8]) -> u64
    ensures { result ≡ found_code (missing_of bytes.now tags.now) }
{
    list::check_coverage(bytes, tags).map_or_else(codes::refusal, |told| codes::node(told.missing))
}

// The number of bits set in a tag list.
#[unsafe(no_mangle)]
pub extern "C" fn list_total(tags: &[u8]) -> u64
    ensures { result ≡ bits_set tags.now % 2 ^ 64 }
{
    list::total(tags)
}

// Record i of the arbiter list, from 0; 0 past the last; a refusal where the table is refused.
#[unsafe(no_mangle)]
pub extern "C" fn list_record(bytes: &[u8], index: usize) -> u64
    ensures { result ≡ item_code (item_of bytes.now index) }
{
    match list::list_records(bytes) {
        Err(refusal) => codes::refusal(refusal),
        Ok(listing) => match listing.items[..listing.count].get(index) {
            Some(record) => codes::record(*record),
            None => 0,
        },
    }
}

// Fills a lent record list with the arbiter list; 10 where it is shorter, and records past the list keep their content.
#[unsafe(no_mangle)]
pub extern "C" fn list_fill_records(bytes: &[u8], records: &mut [Record]) -> u32
    ensures { (result ≡ code_of (records_verdict bytes.now (length records.old)))
        × (records.new ≡ filled_records bytes.now records.old) }
{
    code(list::fill_records(bytes, records))
}
