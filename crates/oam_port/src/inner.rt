// What the public calls of this crate stand on, once their tests are passed.
ghost use Rattle.std.specs.Prelude.{◌≡◌, ◌<◌, length};
ghost use Rattle.oam_port.specs.Port.{memory_place, memory_byte, machine, set_address, store, move};

use crate::OamPort;

// The byte that an address means: from 512 on the second table's 32 bytes, repeated.
fn byte_number(address: u16) -> usize
    requires { address < 1024 }
    ensures { (result ≡ memory_place address) × (result < 544) }
{
    let addr = address as usize;
    if addr < 512 { addr } else { 512 + addr % 32 }
}

pub fn byte_at(oam: &[u8], address: u16) -> u8
    requires whole { length oam.now ≡ 544 }
    requires in_range { address < 1024 }
    ensures { result ≡ memory_byte oam.now address }
{
    oam[byte_number(address)]
}

// Moves the port on, after an access that leaves its latch.
pub fn move_on(port: &mut OamPort)
    requires { port.old.address < 1024 }
    ensures { port.new ≡ move port.old }
{
    port.address = (port.address + 1) % 1024;
}

pub fn write_addr(port: &mut OamPort, oamadd: u16)
    ensures { port.new ≡ set_address oamadd port.old }
{
    port.address = oamadd % 512 * 2;
}

#[tactic(auto, unfolding(crate::specs::Port::store))]
pub fn write_data(port: &mut OamPort, oam: &mut [u8], value: u8)
    requires whole { length oam.old ≡ 544 }
    requires in_range { port.old.address < 1024 }
    ensures { machine oam.new port.new ≡ store value (machine oam.old port.old) }
{
    let addr = port.address as usize;
    if addr >= 512 {
        oam[byte_number(port.address)] = value;
    } else if addr % 2 == 0 {
        port.write_latch = value;
    } else {
        oam[addr - 1] = port.write_latch;
        oam[addr] = value;
    }
    move_on(port);
}
