//! The orders that the driver executes.
ghost use Rattle.std.specs.Prelude.{◌≡◌};
ghost use Rattle.demodriver.specs.Orders.{executed, front_and_value, low_in, obeyed};

use crate::status::Status;
use crate::ups::{LOW_LEAST, LOW_MOST, Ups};
use nutwords::read_natural;

/// How an order ended, by NUT's numbers.
#[derive(Clone, Copy)]
pub enum Ended {
    /// It was executed.
    Well = 0,
    /// The driver has no such command or variable.
    Unknown = 1,
    /// The variable doesn't take this value.
    Invalid = 2,
}

/// Executes `INSTCMD name` or `SET name "value"`. No command takes a value, and no value needs an
/// escape.
pub fn execute(ups: &mut Ups, order: &str) -> Ended
    ensures { (ups.new, result) ≡ executed order.now ups.old }
{
    let (front, value) = front_and_value(order);
    obey(ups, front, value)
}

/// What stands before the first quote of an order, and what stands between it and the next.
fn front_and_value(order: &str) -> (&str, &str)
    ensures { (result.0.now, result.1.now) ≡ front_and_value order.now }
{
    let (front, rest) = order.split_once('"').unwrap_or((order, ""));
    let (value, _) = rest.split_once('"').unwrap_or((rest, ""));
    (front, value)
}

/// Does what the front of an order says, with the value.
fn obey(ups: &mut Ups, front: &str, value: &str) -> Ended
    ensures { (ups.new, result) ≡ obeyed front.now value.now ups.old }
{
    match front {
        "INSTCMD test.failure.start" => ups.start_failure(),
        "INSTCMD test.failure.stop" => ups.stop_failure(),
        "SET battery.charge.low " => match low_in(value) {
            Some(low) => ups.low = low,
            None => return Ended::Invalid,
        },
        "SET ups.status " => match Status::read(value) {
            Some(status) => ups.set = status,
            None => return Ended::Invalid,
        },
        _ => return Ended::Unknown,
    }
    Ended::Well
}

/// The charge at which the battery is to be low.
fn low_in(value: &str) -> Option<u8>
    ensures { result ≡ low_in value.now }
{
    let low = read_natural(value.as_bytes(), u64::from(LOW_MOST))? as u8;
    if low >= LOW_LEAST { Some(low) } else { None }
}
