//! The verdict of the orders that were followed, in words.

use crate::facts::{SearchFacts, Stop, Verdict};
use crate::given::Asked;
use crate::texts::{BoundText, Count};
use board_space::Bound;
use std::fmt;
use std::io::{self, Write};

/// The orders that were followed, and what does not happen in them.
#[derive(Drop)]
struct OrdersText(Asked, Bound);

/// What does not happen in orders.
fn left_out(asked: Asked) -> &'static str {
    match (asked.cuts, asked.refusals) {
        (true, true) => ", and wherever power fails",
        (true, false) => ", and wherever power fails, where no sleep and no reset is refused",
        (false, true) => ", where power does not fail",
        (false, false) => ", where power does not fail and no sleep and no reset is refused",
    }
}

impl fmt::Display for OrdersText {
    fn fmt<W: fmt::Write>(&self, f: &mut fmt::Formatter<W>) -> fmt::Result {
        let OrdersText(asked, bound) = self;
        f.write_str("in every order of its harts")?;
        if *bound != Bound::Unbounded {
            let bound = BoundText(*bound);
            write!(f, " with {bound}")?;
        }
        f.write_str(left_out(*asked))
    }
}

/// Why a search was not closed.
fn stop_words(stop: Stop) -> &'static str {
    match stop {
        Stop::Boards => "so many boards as --boards says",
        Stop::Memory => "so much memory as --memory says",
        Stop::Map => "a turn that broke the map of what harts touch",
        Stop::Switches => "its end, with orders that come to none",
        Stop::Lives => "its end, with no order that comes to one",
        Stop::Untold => "its end, and it tells nothing of every order",
    }
}

/// Writes why the search of every order was given up.
pub fn write_stop<W: Write>(out: &mut W, stop: Stop) -> io::Result<()> {
    let stop = stop_words(stop);
    writeln!(out, "the search of every order stopped at {stop}")
}

/// Writes that nothing is wrong with so many power-ons.
fn write_lives<W: Write>(out: &mut W, most: u32, orders: &OrdersText) -> io::Result<()> {
    let most = Count(u64::from(most), "power-on");
    writeln!(
        out,
        "ok up to {most}: {orders}, it ends with this, or the next power-on is due"
    )
}

/// Writes that a failure was found, and whether there may be others.
fn write_found<W: Write>(out: &mut W, stop: Option<Stop>, orders: &OrdersText) -> io::Result<()> {
    match stop {
        None => writeln!(out, "found: {orders}, there is no failure of another kind"),
        Some(stop) => {
            let stop = stop_words(stop);
            writeln!(
                out,
                "found: there may be failures of other kinds, since the search stopped at {stop}"
            )
        }
    }
}

/// Writes that nothing was found, and why not every order was followed.
fn write_open<W: Write>(out: &mut W, stop: Stop, bound: Bound) -> io::Result<()> {
    let orders = match stop {
        Stop::Switches => "some orders come to no end",
        Stop::Lives => "no order comes to an end",
        _ => "",
    };
    if !orders.is_empty() {
        let bound = BoundText(bound);
        return writeln!(out, "open: nothing was found, but with {bound} {orders}");
    }
    let stop = stop_words(stop);
    writeln!(
        out,
        "open: nothing was found until the search stopped at {stop}, and nothing is said of other orders"
    )
}

/// Writes the verdict.
pub fn write_verdict<W: Write>(
    out: &mut W,
    verdict: Verdict,
    search: &SearchFacts,
    asked: Asked,
) -> io::Result<()> {
    let orders = OrdersText(asked, search.bound);
    match verdict {
        Verdict::Holds => writeln!(out, "ok: {orders}, it ends with this"),
        Verdict::Within(most) => writeln!(out, "ok up to {most}: {orders}, it ends with this"),
        Verdict::Lives(most) => write_lives(out, most, &orders),
        Verdict::Found => write_found(out, search.stop, &orders),
        Verdict::Open(stop) => write_open(out, stop, search.bound),
        Verdict::Blank => writeln!(
            out,
            "open: nothing was found, but nothing is looked at that the kernel writes: name some bytes with --look or --expect"
        ),
    }
}
