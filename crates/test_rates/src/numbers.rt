//! Natural numbers and fractions.
mod naturals;
mod ratios;
mod table;
