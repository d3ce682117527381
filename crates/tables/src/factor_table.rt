//! The built-in factors, to compare with the accounting draft's refrigerants and the zero-carbon draft's electricity.
use domain::FactorUnit;
use factors::{BuiltIn, FactorSource};
use std::{fmt, io};

const ELECTRICITY: u32 = 1;

const FIRST_REFRIGERANT: u32 = 101;

// The names in the accounting draft, in its order.
const REFRIGERANTS: [&str; 15] = [
    "R-125",
    "R-134a",
    "R-143a",
    "R-152a",
    "R-227ea",
    "R-23",
    "R-236cb",
    "R-236ea",
    "R-236fa",
    "R-245ca",
    "R-245fa",
    "R-32",
    "R-365mfc",
    "R-41",
    "R-43-10mee",
];

// A kilogram and a tenth of one, in tenths of a gram.
const TENTHS_OF_A_GRAM_PER_KILOGRAM: u32 = 10_000;

const TENTH: u32 = 1_000;

// Tenths of a gram, written in kilograms with no more decimals than needed. The accounting draft gives warming
// potentials in kilograms of carbon dioxide per kilogram of refrigerant.
#[derive(Clone, Copy, Debug, PartialEq, Eq)]
struct Kilograms(u32);

impl fmt::Display for Kilograms {
    fn fmt<W: fmt::Write>(&self, f: &mut fmt::Formatter<W>) -> fmt::Result {
        let whole = self.0 / TENTHS_OF_A_GRAM_PER_KILOGRAM;
        let rest = self.0 % TENTHS_OF_A_GRAM_PER_KILOGRAM;
        let tenths = rest / TENTH;
        if rest == 0 {
            write!(f, "{whole}")
        } else if rest % TENTH == 0 {
            write!(f, "{whole}.{tenths}")
        } else {
            write!(f, "{whole}.{rest:04}")
        }
    }
}

pub(crate) fn print_factors(rt: &impl Print) -> io::Result<()> {
    println!(rt; "factors: code, name, kilograms of carbon dioxide equivalent per unit")?;
    print_factor(rt, ELECTRICITY, "electricity")?;
    for (code, name) in (FIRST_REFRIGERANT..).zip(REFRIGERANTS) {
        print_factor(rt, code, name)?;
    }
    Ok(())
}

fn print_factor(rt: &impl Print, code: u32, name: &str) -> io::Result<()> {
    match BuiltIn.factor(code) {
        Ok(factor) => {
            let kilograms = Kilograms(factor.amount);
            let unit = unit_name(factor.unit);
            println!(rt; "{code:>3}  {name:<11}  {kilograms} {unit}")
        }
        Err(_) => println!(rt; "{code:>3}  {name:<11}  -"),
    }
}

fn unit_name(unit: FactorUnit) -> &'static str {
    match unit {
        FactorUnit::Tonne => "t",
        FactorUnit::CubicMetre => "m3",
        FactorUnit::KilowattHour => "kWh",
        FactorUnit::Kilogram => "kg",
        FactorUnit::TonneKilometre => "t km",
        FactorUnit::Piece => "piece",
        FactorUnit::SquareMetre => "m2",
    }
}
