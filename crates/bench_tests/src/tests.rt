mod calls;
mod gates;
mod pulses;
mod runs;
mod setup;
mod shared;
mod stress;
mod watching;
