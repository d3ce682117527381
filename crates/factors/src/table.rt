//! The source of the built-in factors: grid electricity and refrigerants.
ghost use Rattle.factors.specs.BuiltIn.{built_in_map};

use crate::lack::Lack;
use crate::source::FactorSource;
use domain::{Factor, FactorUnit};

const ELECTRICITY: u32 = 1;

// Tenths of a gram per kilowatt-hour, after the zero-carbon draft.
const ELECTRICITY_AMOUNT: u32 = 5_000;

const FIRST_REFRIGERANT: u32 = 101;

// A kilogram of carbon dioxide, in tenths of a gram.
const TENTHS_OF_A_GRAM_PER_KILOGRAM: u32 = 10_000;

// The global warming potentials of the refrigerants, as multiples of that of carbon dioxide, after the accounting
// draft. Their codes count up from 101.
const WARMING_POTENTIALS: [u32; 15] = [
    3_500, // R-125
    1_430, // R-134a
    4_470, // R-143a
    124, // R-152a
    3_220, // R-227ea
    14_800, // R-23
    1_340, // R-236cb
    1_370, // R-236ea
    9_810, // R-236fa
    693, // R-245ca
    1_030, // R-245fa
    675, // R-32
    794, // R-365mfc
    92, // R-41
    1_640, // R-43-10mee
];

/// The built-in factors: code 1 is grid electricity, after the zero-carbon draft, and the codes 101 to 115 are
/// refrigerants per kilogram, after the accounting draft. Any other code is lacking.
#[derive(Clone, Copy, Debug, PartialEq, Eq)]
pub struct BuiltIn;

impl FactorSource for BuiltIn {
    ghost factor_map = { λ _. built_in_map };

    fn factor(&self, code: u32) -> Result<Factor, Lack> {
        if code == ELECTRICITY {
            return Ok(Factor {
                amount: ELECTRICITY_AMOUNT,
                unit: FactorUnit::KilowattHour,
            });
        }
        let warming = code
            .checked_sub(FIRST_REFRIGERANT)
            .and_then(|i| WARMING_POTENTIALS.get(i as usize))
            .ok_or(Lack { code })?;
        Ok(Factor {
            amount: *warming * TENTHS_OF_A_GRAM_PER_KILOGRAM,
            unit: FactorUnit::Kilogram,
        })
    }
}
