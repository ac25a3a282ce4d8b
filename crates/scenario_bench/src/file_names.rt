//! The names of the files with the traces of a scenario.
ghost use Rattle.std.specs.Prelude.{◌≡◌, ◌+◌, IfOk, OnOk, length};
ghost use Rattle.scenario_bench.specs.FileNames.{sockets_in, wires_in};

use crate::wire_list::wires;
use std::alloc::{AllocError, Global};
use wire::HostPlan;

/// Appends the name of the file of each socket of a host, `HOST.SOCKET.pcap`.
fn push_socket_files(
    alloc: Global,
    plan: &HostPlan,
    names: &mut Vec<String>,
) -> Result<(), AllocError>
    ensures { OnOk result (length names.new.items ≡ length names.old.items + length plan.now.sockets.items) }
{
    let host = plan.name.as_str();
    for socket in 0..plan.sockets.len() {
        names.push(format!(in alloc; "{host}.{socket}.pcap")?)?;
    }
    Ok(())
}

/// Returns the name of the file of each socket, `HOST.SOCKET.pcap`: the sockets of the first host in order, then those
/// of the next host. The contract states only the number of names.
///
/// # Errors
///
/// Returns an error only if memory is refused.
pub fn socket_files(alloc: Global, plans: &[HostPlan]) -> Result<Vec<String>, AllocError>
    ensures { IfOk result (λ names. length names.items ≡ sockets_in plans.now) }
{
    let mut names = Vec::new(alloc);
    for plan in plans {
        push_socket_files(alloc, plan, &mut names)?;
    }
    Ok(names)
}

/// Returns the name of the file of each of these wires, `WIRE.pcap`, in order.
fn files_of_wires(alloc: Global, wires: &[&str]) -> Result<Vec<String>, AllocError>
    ensures { IfOk result (λ names. length names.items ≡ length wires.now) }
{
    let mut names = Vec::new(alloc);
    for wire in wires {
        names.push(format!(in alloc; "{wire}.pcap")?)?;
    }
    Ok(names)
}

/// Returns the name of the file of each wire, `WIRE.pcap`, in the order in which the hosts first name the wires. In a
/// valid plan, no socket's file has such a name: a wire's name has no dot, and the name of a socket's file has two. The
/// contract states only the number of names.
///
/// # Errors
///
/// Returns an error only if memory is refused.
pub fn wire_files(alloc: Global, plans: &[HostPlan]) -> Result<Vec<String>, AllocError>
    ensures { IfOk result (λ names. length names.items ≡ wires_in plans.now) }
{
    let found = wires(alloc, plans)?;
    files_of_wires(alloc, found.as_slice())
}
