//! A vCPU's thread: its ops, one a turn, and what each answer asks for.
#![tactic(auto)]

mod vcpu;

pub use vcpu::run_vcpu;
