// The stepping machine and the plain loop.
#![tactic(auto)]

// A step of a run, counted from 1. Body steps and iterations are counted apart.
#[derive(Clone, Copy)]
pub struct RunStep(pub u32);

// An iteration of the loop, counted from 0.
#[derive(Clone, Copy)]
pub struct Iteration(pub u32);
