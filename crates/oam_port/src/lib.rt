// The data port of sprite memory: its address and latch by value, over the lent memory. Follows
// oam.rs, with its names.
#![tactic(auto)]

pub mod inner;

ghost use Rattle.std.specs.Prelude.{◌≡◌, List, ℕ, ◌<◌};
ghost use Rattle.base_refusal.specs.Results.{means, Passed};
ghost use Rattle.oam_port.specs.Port.{rest_port, machine, address_tests, data_tests, addressed, wrote, read_out};

use base_refusal::Refusal;
use oam::OAM_SIZE;

// The addresses of the port.
pub const PORT_ADDRESSES: u16 = 1024;

// The address, 0 to 1,023, of the byte that the next access means, and the byte that waits for the
// other half of its pair.
#[derive(Clone, Copy, Debug, Default, PartialEq, Eq)]
pub struct OamPort {
    pub address: u16,
    pub write_latch: u8,
}

// The test of the address write.
fn address_tested(address: u16) -> Result<(), Refusal>
    ensures { (means result ≡ address_tests address) × (Passed result → (address < 1024)) }
{
    if address < PORT_ADDRESSES {
        Ok(())
    } else {
        Err(Refusal::Argument)
    }
}

// The tests of a data access: sprite memory's length, then the address.
fn data_tested(oam_len: usize, address: u16) -> Result<(), Refusal>
    ensures { (means result ≡ data_tests oam_len address) × (Passed result → (oam_len ≡ 544) × (address < 1024)) }
{
    if oam_len == OAM_SIZE {
        address_tested(address)
    } else {
        Err(Refusal::Oam)
    }
}

impl OamPort {
    // The port at rest: address and latch 0.
    pub fn new() -> OamPort
        ensures { result ≡ rest_port }
    {
        OamPort::default()
    }

    // The address write: oamadd's low nine bits name a pair of bytes. The latch is kept.
    #[tactic(auto, unfolding(crate::specs::Port::addressed))]
    pub fn write_addr(&mut self, oamadd: u16) -> Result<(), Refusal>
        ensures { (oam : List ℕ) → record { said = means result; left = machine oam self.new } ≡ addressed oamadd (machine oam self.old) }
    {
        address_tested(self.address)?;
        inner::write_addr(self, oamadd);
        Ok(())
    }

    // The data write: below 512 a pair is stored at its second byte, from 512 each byte at once.
    #[tactic(auto, unfolding(crate::specs::Port::wrote))]
    pub fn write_data(&mut self, oam: &mut [u8], value: u8) -> Result<(), Refusal>
        ensures { record { said = means result; left = machine oam.new self.new } ≡ wrote value (machine oam.old self.old) }
    {
        data_tested(oam.len(), self.address)?;
        inner::write_data(self, oam, value);
        Ok(())
    }

    // The data read: the byte at the address, which moves on. The latch is kept.
    #[tactic(auto, unfolding(crate::specs::Port::read_out))]
    pub fn read_data(&mut self, oam: &[u8]) -> Result<u8, Refusal>
        ensures { record { said = means result; left = machine oam.now self.new } ≡ read_out (machine oam.now self.old) }
    {
        data_tested(oam.len(), self.address)?;
        let byte = inner::byte_at(oam, self.address);
        inner::move_on(self);
        Ok(byte)
    }
}
