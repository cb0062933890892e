// What stands above the calls, and shear and studs of a sheet, asked and printed.
use crate::girder::{COVER_BREADTH, COVER_HEIGHT, COVER_TOP, FY, SLAB, strength_one};
use crate::units::{Inches, kips, thousandths};
use crate::words::verdict_name;
use kinds::Deck;
use questions::Stud;
use sheet::Sheet;
use std::io;

const STUD: Stud = Stud {
    area: 601,
    fu: 60_000,
    fc: 4000,
    ec: 3_640_000,
};

const UNITS: &str =
    "Units: levels 1/16 in, forces 1/256 lb, plastic moments 1/8192 lb-in, Mp and Mn lb-in,
factored sums 1/1600 kip or kip-ft; in brackets cut to whole kips or kip-ft";

// The title, the parts that questions are asked with, and the units.
pub(crate) fn print_head(rt: &impl Print) -> io::Result<()> {
    rt.println("Composite plate girder, worked from the empty sheet")?;
    let breadth = Inches(SLAB.breadth);
    let height = Inches(SLAB.height);
    let top = Inches(SLAB.top);
    let strength = SLAB.fc;
    println!(rt; "Deck: slab {breadth} by {height} in at {top} in, f'c {strength} psi, no bars")?;
    let breadth = Inches(COVER_BREADTH);
    let height = Inches(COVER_HEIGHT);
    let top = Inches(COVER_TOP);
    println!(rt; "Cover plate: {breadth} by {height} in at {top} in, Fy {FY} psi")?;
    rt.println(UNITS)
}

pub(crate) fn print_shear(
    rt: &impl Print,
    sheet: &Sheet,
    spacing: Option<u16>,
) -> anyhow::Result<()> {
    let found = questions::shear(sheet, spacing, &strength_one())?;
    match spacing {
        None => rt.print("      shear in Strength I without stiffeners")?,
        Some(spacing) => print!(rt;
            "      shear in Strength I with stiffeners at {} in",
            Inches(spacing)
        )?,
    }
    let force = found.resistance;
    let kips = kips(force);
    let verdict = verdict_name(found.verdict);
    println!(rt; "\n        V {force} ({kips} kips), {verdict}")?;
    Ok(())
}

pub(crate) fn print_studs(rt: &impl Print, sheet: &Sheet, deck: &Deck) -> anyhow::Result<()> {
    let found = questions::studs(sheet, deck, STUD)?;
    let force = found.force;
    let (kips, pounds) = thousandths(force);
    let (inches, rest) = thousandths(u64::from(STUD.area));
    let count = found.count;
    println!(rt;
        "      studs of {inches}.{rest:03} sq in with the deck\n        Q {force} lb ({kips}.{pounds:03} kips), {count} studs"
    )?;
    Ok(())
}
