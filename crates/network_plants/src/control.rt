//! A control for functions that make a call twice. If the contract of the call permits several results, the prover must
//! reject the function. The body of the call doesn't matter.

ghost use Rattle.std.specs.Prelude.{◌≡◌, ◌≤◌};
ghost use Rattle.dma_memory.specs.Layout.{size_of};

use driver::Driver;

/// Returns the number of bytes that the rings and buffers of a driver occupy.
fn bytes_of(driver: &Driver) -> u64
    ensures exact { result ≡ size_of driver.now.layout }
{
    driver.layout().size()
}

/// Makes the same call twice, with equal drivers. An edit loosens the clause `exact` of `bytes_of`, and nothing else.
pub fn bytes_twice(one: &Driver, other: &Driver) -> (u64, u64)
    requires { one.now ≡ other.now }
    ensures { result.0 ≡ result.1 }
{
    (bytes_of(one), bytes_of(other))
}
