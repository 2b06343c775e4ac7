//! Flat code in which callees stand in place of their calls.
pub(crate) mod entries;
pub(crate) mod fields;
pub(crate) mod flats;
pub(crate) mod frames;
pub(crate) mod hosts;
pub(crate) mod layouts;
pub(crate) mod measures;
pub(crate) mod places;
pub(crate) mod points;
pub(crate) mod returns;
pub(crate) mod settings;
pub(crate) mod shapes;
pub(crate) mod sites;
pub(crate) mod wide;
