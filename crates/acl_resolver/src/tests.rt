mod fixtures;
mod later;
mod places;
mod whole;
