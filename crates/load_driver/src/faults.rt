// The text of the drivers' faults.
use super::driver::DriverFault;
use std::fmt;

impl fmt::Display for DriverFault {
    ghost use Rattle.std.specs.Prelude.{Some};
    ghost use Rattle.load_driver.specs.Driver.{fault_text};

    ghost output = { λ fault. Some (fault_text fault) };

    fn fmt<W: fmt::Write>(&self, f: &mut fmt::Formatter<W>) -> fmt::Result {
        match self {
            DriverFault::Memory => f.write_str("memory"),
            DriverFault::Read => f.write_str("read"),
            DriverFault::TooLarge => f.write_str("too large"),
            DriverFault::Line(fault) => write!(f, "{fault}"),
            DriverFault::Write => f.write_str("write"),
        }
    }
}
