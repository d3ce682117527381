//! The ratios of the grades, from the zero-carbon draft: by how many per cent a building has to be below its reference.
ghost use Rattle.std.specs.Prelude.{◌≡◌, ◌≤◌};
ghost use Rattle.domain.specs.Numbers.{region_number};
ghost use Rattle.grades.specs.Ratios.{ratio, low_carbon_ratios, near_zero_ratios};

use domain::Region;

pub(crate) fn low_carbon_ratio(region: Region) -> u16
    ensures value { result ≡ ratio low_carbon_ratios (region_number region) }
    ensures share { result ≤ 100 }
{
    match region {
        Region::SevereCold => 40,
        Region::Cold => 35,
        Region::HotSummerColdWinter | Region::HotSummerWarmWinter | Region::Mild => 30,
    }
}

pub(crate) fn near_zero_ratio(region: Region) -> u16
    ensures value { result ≡ ratio near_zero_ratios (region_number region) }
    ensures share { result ≤ 100 }
{
    match region {
        Region::SevereCold => 55,
        Region::Cold => 50,
        Region::HotSummerColdWinter | Region::HotSummerWarmWinter | Region::Mild => 45,
    }
}
