// Whether a list of boxes meets the premises of the request's point 3 and, where not, what breaks them first.
pub mod faults;
pub mod ordinary;
