//! What would lower a bound at its prices: one more bed, or 60 more minutes of a surgeon or in a theatre.

ghost use Rattle.std.specs.Prelude.{◌≡◌, ◌+◌, ◌-◌, ◌*◌, ◌/◌, ◌%◌, ◌<◌, ◌≤◌, ◌^◌, ◌++◌, All, IfOk, OnOk};
ghost use Rattle.ih_tables.specs.Sizes.{surgeon_count, theatre_count};
ghost use Rattle.ih_bound.specs.Tariffs.{tariff_of};
ghost use Rattle.ih_bound.specs.declared.scarcity.Thing.TheVariants.{Beds, OfSurgeon, OfTheatre};
ghost use Rattle.ih_bound.specs.Hints.{HasPrices, IsHinted, IsThing, all_points, hint_line, hints_text, last_line, more_text};
ghost use Rattle.ih_bound.specs.Hints.{place_count, points_at, points_text, relief, surgeon_id, theatre_id, thing_in};

use crate::greatest::ten_greatest;
use crate::incomes::all_shares;
use crate::outcomes::{Outcome, Priced};
use crate::prices::{Prices, Rates, at};
use crate::scarcity::Thing;
use crate::texts::{put, put_number};
use ih_tables::{Instance, SurgeonNo, TheatreNo};
use ih_validate::{Resource, limit_of};
use std::alloc::{AllocError, Global};

const PARTS: u64 = 4096;

// What a row is of: beds, each surgeon, each theatre.
fn thing_in(inst: &Instance, row: u32) -> Thing
    ensures { result ≡ thing_in inst.now.draft row }
{
    if row == 0 {
        Thing::Beds
    } else if row <= inst.surgeons() {
        Thing::OfSurgeon(SurgeonNo(row - 1))
    } else {
        Thing::OfTheatre(TheatreNo(row - 1 - inst.surgeons()))
    }
}

// By how much 60 more minutes come to more at a price, with shares, above what it is worth to open a theatre.
fn more_above(price: u64, minutes: u64, shares: u64, opening: u64) -> u64
    requires { price ≤ 2 ^ 29 }
    ensures { result ≡ price * (minutes + 60) + shares - opening - (price * minutes + shares - opening) }
{
    let all = price.saturating_mul(minutes).saturating_add(shares);
    let missing = opening.saturating_sub(all);
    (60 * price).saturating_sub(missing)
}

fn surgeon_price(inst: &Instance, rates: &Rates, prices: &Prices, surgeon: u32, day: u32) -> u64
    ensures value { result ≡ (tariff_of inst.now.draft rates.now prices.now).surgeon surgeon day }
    ensures most { result ≤ 2 ^ 29 }
{
    prices.surgeon_on(inst.days(), surgeon, day)
}

fn theatre_price(inst: &Instance, rates: &Rates, prices: &Prices, theatre: u32, day: u32) -> u64
    ensures value { result ≡ (tariff_of inst.now.draft rates.now prices.now).theatre theatre day }
    ensures most { result ≤ 2 ^ 29 }
{
    prices.theatre_on(inst.days(), theatre, day)
}

fn relief_of_beds(inst: &Instance, rates: &Rates, prices: &Prices, day: u32) -> u64
    requires { day < inst.now.draft.days }
    ensures { result ≡ relief inst.now.draft rates.now (tariff_of inst.now.draft rates.now prices.now) Beds day }
{
    prices.bed_on(day)
}

fn relief_of_surgeon(
    inst: &Instance,
    rates: &Rates,
    prices: &Prices,
    surgeon: SurgeonNo,
    day: u32,
) -> u64
    requires known { surgeon.0 < surgeon_count inst.now.draft }
    requires day { day < inst.now.draft.days }
    ensures { result ≡ relief inst.now.draft rates.now (tariff_of inst.now.draft rates.now prices.now)
        (OfSurgeon surgeon) day }
{
    60 * surgeon_price(inst, rates, prices, surgeon.0, day)
}

fn relief_of_theatre(
    inst: &Instance,
    rates: &Rates,
    prices: &Prices,
    theatre: TheatreNo,
    day: u32,
) -> u64
    requires known { theatre.0 < theatre_count inst.now.draft }
    requires day { day < inst.now.draft.days }
    ensures { result ≡ relief inst.now.draft rates.now (tariff_of inst.now.draft rates.now prices.now)
        (OfTheatre theatre) day }
{
    more_above(
        theatre_price(inst, rates, prices, theatre.0, day),
        limit_of(inst, Resource::OfTheatre(theatre), day),
        all_shares(inst, rates, prices, theatre.0, day),
        rates.theatre,
    )
}

// By how much less prices show with more of a thing on a day.
fn relief(inst: &Instance, rates: &Rates, prices: &Prices, thing: Thing, day: u32) -> u64
    requires thing { IsThing inst.now.draft thing }
    requires day { day < inst.now.draft.days }
    ensures { result ≡ relief inst.now.draft rates.now (tariff_of inst.now.draft rates.now prices.now) thing day }
{
    match thing {
        Thing::Beds => relief_of_beds(inst, rates, prices, day),
        Thing::OfSurgeon(s) => relief_of_surgeon(inst, rates, prices, s, day),
        Thing::OfTheatre(t) => relief_of_theatre(inst, rates, prices, t, day),
    }
}

// The points of a place.
fn points_at(inst: &Instance, rates: &Rates, prices: &Prices, place: u32) -> u64
    requires { place < place_count inst.now.draft }
    ensures { result ≡ points_at inst.now.draft rates.now (tariff_of inst.now.draft rates.now prices.now) place }
{
    let days = inst.days();
    relief(
        inst,
        rates,
        prices,
        thing_in(inst, place / days),
        place % days,
    ) / PARTS
}

// The points of all things on all days.
fn all_points(
    alloc: Global,
    inst: &Instance,
    rates: &Rates,
    prices: &Prices,
) -> Result<Vec<u64>, AllocError>
    ensures { IfOk result (λ v. v.items ≡ all_points inst.now.draft rates.now
        (tariff_of inst.now.draft rates.now prices.now)) }
{
    let mut list = Vec::new(alloc);
    for place in 0..(1 + inst.surgeons() + inst.theatres()) * inst.days() {
        list.push(points_at(inst, rates, prices, place))?;
    }
    Ok(list)
}

// The surgeon's id.
fn surgeon_id(inst: &Instance, surgeon: SurgeonNo) -> &str
    ensures { result.now ≡ surgeon_id inst.now.draft surgeon.0 }
{
    match inst.draft.surgeons.as_slice().get(surgeon.0 as usize) {
        Some(a) => a.id.as_str(),
        None => "",
    }
}

// The theatre's id.
fn theatre_id(inst: &Instance, theatre: TheatreNo) -> &str
    ensures { result.now ≡ theatre_id inst.now.draft theatre.0 }
{
    match inst
        .draft
        .operating_theaters
        .as_slice()
        .get(theatre.0 as usize)
    {
        Some(a) => a.id.as_str(),
        None => "",
    }
}

// Appends a text and an id.
fn put_id(out: &mut Vec<u8>, text: &str, id: &str) -> Result<(), AllocError>
    ensures { OnOk result (out.new.items ≡ out.old.items ++ (text.now ++ id.now)) }
{
    put(out, text)?;
    put(out, id)
}

fn put_surgeon(out: &mut Vec<u8>, inst: &Instance, surgeon: SurgeonNo) -> Result<(), AllocError>
    ensures { OnOk result (out.new.items ≡ out.old.items ++ more_text inst.now.draft (OfSurgeon surgeon)) }
{
    put_id(
        out,
        "60 more minutes of surgeon ",
        surgeon_id(inst, surgeon),
    )
}

fn put_theatre(out: &mut Vec<u8>, inst: &Instance, theatre: TheatreNo) -> Result<(), AllocError>
    ensures { OnOk result (out.new.items ≡ out.old.items ++ more_text inst.now.draft (OfTheatre theatre)) }
{
    put_id(
        out,
        "60 more minutes in theatre ",
        theatre_id(inst, theatre),
    )
}

// Appends what there would be more of.
fn put_more(out: &mut Vec<u8>, inst: &Instance, thing: Thing) -> Result<(), AllocError>
    ensures { OnOk result (out.new.items ≡ out.old.items ++ more_text inst.now.draft thing) }
{
    match thing {
        Thing::Beds => put(out, "one more bed"),
        Thing::OfSurgeon(s) => put_surgeon(out, inst, s),
        Thing::OfTheatre(t) => put_theatre(out, inst, t),
    }
}

// Appends so many points, to the end of the line.
fn put_points(out: &mut Vec<u8>, points: u64) -> Result<(), AllocError>
    ensures { OnOk result (out.new.items ≡ out.old.items ++ points_text points) }
{
    put_number(out, "", points)?;
    if points == 1 {
        put(out, " point\n")
    } else {
        put(out, " points\n")
    }
}

// Appends the line of a place.
fn put_hint(
    out: &mut Vec<u8>,
    inst: &Instance,
    points: &[u64],
    place: usize,
) -> Result<(), AllocError>
    requires { place < place_count inst.now.draft }
    ensures { OnOk result (out.new.items ≡ out.old.items ++ hint_line inst.now.draft points.now place) }
{
    let days = inst.days() as usize;
    put_more(out, inst, thing_in(inst, (place / days) as u32))?;
    put_number(out, " on day ", (place % days) as u64)?;
    put(out, ": up to ")?;
    put_points(out, at(points, place))
}

// Appends what the lines before it are.
fn put_last(out: &mut Vec<u8>, places: &[usize]) -> Result<(), AllocError>
    ensures { OnOk result (out.new.items ≡ out.old.items ++ last_line places.now) }
{
    if places.is_empty() {
        put(
            out,
            "no bed and no hour more would take a point off the bound above, at its prices\n",
        )
    } else {
        put(
            out,
            "these are hints for the cost: by so much the bound above falls, at its prices\n",
        )
    }
}

// The lines of all places.
fn lines(
    alloc: Global,
    inst: &Instance,
    points: &[u64],
    places: &[usize],
) -> Result<Vec<u8>, AllocError>
    requires { All (λ p. p < place_count inst.now.draft) places.now }
    ensures { IfOk result (λ v. v.items ≡ hints_text inst.now.draft points.now places.now) }
{
    let mut out = Vec::new(alloc);
    for place in places {
        put_hint(&mut out, inst, points, *place)?;
    }
    put_last(&mut out, places)?;
    Ok(out)
}

/// What would lower a bound most at its prices, the ten greatest first: nothing where no timetable is feasible.
pub fn hints_text(alloc: Global, inst: &Instance, found: &Priced) -> Result<Vec<u8>, AllocError>
    requires { HasPrices inst.now.draft found.now found.now.outcome }
    ensures { IfOk result (λ v. IsHinted inst.now.draft found.now.outcome v.items) }
{
    match found.outcome {
        Outcome::Infeasible => Ok(Vec::new(alloc)),
        Outcome::AtLeast(_) => {
            let points = all_points(alloc, inst, &found.rates, &found.prices)?;
            let places = ten_greatest(alloc, points.as_slice())?;
            lines(alloc, inst, points.as_slice(), places.as_slice())
        }
    }
}
