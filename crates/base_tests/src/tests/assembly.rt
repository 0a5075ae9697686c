//! Listings, a long source, and the texts of errors. Whole sources with their answers are in tests/answered/assembly.py.

mod faults;
mod listings;
mod long;
