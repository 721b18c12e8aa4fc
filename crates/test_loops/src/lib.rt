//! Tests of `mold_wire`, `mold_devices`, `mold_ports`, `mold_port_set`, of the loops of `mold_send`, `mold_serve`,
//! `mold_listen`, `mold_loop` and `mold_receive`, over ports in memory, and of `mold_pacing`, `mold_repair` and
//! `mold_durable`.
#![tactic(auto)]

#[cfg(test)]
mod comparisons;
#[cfg(test)]
mod crashes;
#[cfg(test)]
mod devices;
#[cfg(test)]
mod failures;
#[cfg(test)]
mod files;
#[cfg(test)]
mod following;
#[cfg(test)]
mod journals;
#[cfg(test)]
mod listen;
#[cfg(test)]
mod pacer;
#[cfg(test)]
mod parts;
#[cfg(test)]
mod port_sets;
#[cfg(test)]
mod ports;
#[cfg(test)]
mod publish;
#[cfg(test)]
mod receiving;
#[cfg(test)]
mod reopening;
#[cfg(test)]
mod repairer;
#[cfg(test)]
mod scripts;
#[cfg(test)]
mod serve;
#[cfg(test)]
mod session;
#[cfg(test)]
mod wire;
