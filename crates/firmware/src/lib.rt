// The calls for firmware and programs in other languages: answers are numbers, and a packet changes the record that it is lent.
#![tactic(auto)]

pub mod client;
pub mod controller;
pub mod packet;

// Refusal 0: not refused. The length is that of the response, the packet or the text; a packet's length 0 with refusal 0 is silence.
#[repr(C)]
#[derive(Clone, Copy)]
pub struct Reply {
    pub refusal: u16,
    pub length: usize,
}
