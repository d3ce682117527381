//! The names of the tables' rows and columns.
use domain::{BuildingType, Region};
use grades::Grade;

pub(crate) const GRADES: [(Grade, &str); 2] = [
    (Grade::LowCarbon, "low-carbon"),
    (Grade::NearZero, "near-zero-carbon"),
];

pub(crate) const REGIONS: [(Region, &str); 5] = [
    (Region::SevereCold, "severe cold"),
    (Region::Cold, "cold"),
    (Region::HotSummerColdWinter, "hot summer, cold winter"),
    (Region::HotSummerWarmWinter, "hot summer, warm winter"),
    (Region::Mild, "mild"),
];

// All types of building but homes, which have tables of their own.
pub(crate) const OTHERS: [(BuildingType, &str); 7] = [
    (BuildingType::SmallOffice, "small office"),
    (BuildingType::LargeOffice, "large office"),
    (BuildingType::SmallHotel, "small hotel"),
    (BuildingType::LargeHotel, "large hotel"),
    (BuildingType::Shop, "shop"),
    (BuildingType::Hospital, "hospital"),
    (BuildingType::School, "school"),
];
