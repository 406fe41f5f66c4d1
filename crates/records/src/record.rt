// Event records as bytes: reading and writing one at an offset.
ghost use Rattle.std.specs.Prelude.{◌≡◌, [], ◌∷◌, ◌≤◌, length};
ghost use Rattle.numbers.specs.SevenBit.{Written, outcome_of_write};
ghost use Rattle.engine.specs.rules.Records.{record_bytes, fields_at, by_count, record_fields, entry_from, event_of, read_as, record_at};
ghost use Rattle.records.specs.RecordAnswers.{EventFrom, outcome_of_field, outcome_of_fields, outcome_of_record_read};

use crate::{EventAt, FieldAt, ReadRefusal};
use engine::{Entry, Event};
use numbers::{NoRoom, read, write};
use prices::TimedPrice;

// The field at an offset: its number is read, then judged.
pub fn read_field(bytes: &[u8], at: usize) -> Result<FieldAt, ReadRefusal>
    ensures { outcome_of_field result ≡ fields_at 1 bytes.now at }
{
    let number = read::read_number(bytes, at)?;
    match u32::try_from(number.value) {
        Ok(value) => Ok(FieldAt {
            value,
            end: number.end,
        }),
        Err(_) => Err(ReadRefusal::FieldTooLarge),
    }
}

// N fields from an offset on, and the offset behind them.
fn read_fields<const N: usize>(bytes: &[u8], at: usize) -> Result<([u32; N], usize), ReadRefusal>
    ensures { outcome_of_fields result ≡ fields_at N bytes.now at }
{
    let mut fields = [0; N];
    let mut end = at;
    for field in fields.iter_mut() {
        let read = read_field(bytes, end)?;
        *field = read.value;
        end = read.end;
    }
    Ok((fields, end))
}

// The event that is made of one field, which stands at an offset.
fn read_single<F: FnOnce(u32) -> Event>(
    bytes: &[u8],
    at: usize,
    event_of: F,
) -> Result<EventAt, ReadRefusal>
    requires { F.IsAlwaysCallable event_of }
    ensures { EventFrom (F.post event_of) (fields_at 1 bytes.now at) result }
{
    let field = read_field(bytes, at)?;
    Ok(EventAt {
        event: event_of(field.value),
        end: field.end,
    })
}

// The entry of its fields.
fn entry_of(x: &[u32]) -> Entry
    requires { 7 ≤ length x.now }
    ensures { result ≡ entry_from x.now }
{
    Entry {
        id: x[0],
        mark: x[1],
        price: x[2],
        shares: x[3],
        show: x[4],
        life: x[5],
        slide: x[6],
    }
}

// The event of a kind: the kind is judged, then its fields are read.
// no closure for kinds 1, 6 and 7: a bound `Fn` that names a const parameter, as `FnOnce([u32; N]) -> Event`, gets no generated proof
fn read_event(bytes: &[u8], at: usize, kind: u64) -> Result<EventAt, ReadRefusal>
    ensures { outcome_of_record_read result ≡ read_as event_of (by_count kind (λ n. fields_at n bytes.now at) (record_fields kind)) }
{
    match kind {
        1 => {
            let (x, end) = read_fields::<7>(bytes, at)?;
            Ok(EventAt {
                event: Event::Entry(entry_of(&x)),
                end,
            })
        }
        2 => read_single(bytes, at, Event::Cancel),
        3 => read_single(bytes, at, Event::Bid),
        4 => read_single(bytes, at, Event::Tape),
        5 => read_single(bytes, at, Event::DayEnd),
        6 => {
            let (x, end) = read_fields::<8>(bytes, at)?;
            Ok(EventAt {
                event: Event::OwnedEntry(entry_of(&x), x[7]),
                end,
            })
        }
        7 => {
            let ([time, price], end) = read_fields::<2>(bytes, at)?;
            Ok(EventAt {
                event: Event::TimedTape(TimedPrice { time, price }),
                end,
            })
        }
        _ => Err(ReadRefusal::UnknownKind),
    }
}

// The event record at an offset.
pub fn read_record(bytes: &[u8], at: usize) -> Result<EventAt, ReadRefusal>
    ensures { outcome_of_record_read result ≡ record_at bytes.now at }
{
    let kind = read::read_number(bytes, at)?;
    read_event(bytes, kind.end, kind.value)
}

// The numbers of an entry's record: its kind, its fields and its owner, which only a record of kind 6 has.
fn entry_numbers(kind: u64, e: Entry, owner: u32) -> [u64; 9]
    ensures { result ≡ kind ∷ e.id ∷ e.mark ∷ e.price ∷ e.shares ∷ e.show ∷ e.life ∷ e.slide ∷ owner ∷ [] }
{
    [
        kind,
        u64::from(e.id),
        u64::from(e.mark),
        u64::from(e.price),
        u64::from(e.shares),
        u64::from(e.show),
        u64::from(e.life),
        u64::from(e.slide),
        u64::from(owner),
    ]
}

// Writes the record of an event at an offset, or nothing where it doesn't fit.
pub fn write_record(bytes: &mut [u8], at: usize, event: Event) -> Result<usize, NoRoom>
    ensures { Written (record_bytes event) at bytes.old (outcome_of_write result) bytes.new }
{
    match event {
        Event::Entry(e) => write::write_numbers(bytes, at, &entry_numbers(1, e, 0)[..8]),
        Event::Cancel(id) => write::write_numbers(bytes, at, &[2, u64::from(id)]),
        Event::Bid(price) => write::write_numbers(bytes, at, &[3, u64::from(price)]),
        Event::Tape(price) => write::write_numbers(bytes, at, &[4, u64::from(price)]),
        Event::DayEnd(close) => write::write_numbers(bytes, at, &[5, u64::from(close)]),
        Event::OwnedEntry(e, owner) => {
            write::write_numbers(bytes, at, &entry_numbers(6, e, owner))
        }
        Event::TimedTape(x) => {
            write::write_numbers(bytes, at, &[7, u64::from(x.time), u64::from(x.price)])
        }
    }
}
