ghost use Rattle.std.specs.Prelude.{◌≡◌, ◌<◌, ◌∷◌, ◌++◌, length};
ghost use Rattle.mig_stream.specs.Text.{be32, start_text};
ghost use Rattle.file_plan.specs.Plan.{block_places};
ghost use Rattle.file_plan.specs.Layout.{block_name, configuration_text, front_text, record_text, tail_text};

use crate::{
    CONFIGURATION, END_FLAG, FRONT_LEN, MACHINE_NAME, MAGIC, RAM_NAME, RAM_SECTION, RAM_VERSION,
    RECORD_LEN, STREAM_VERSION, TAIL_LEN, TOTAL_FLAG,
};
use mapped_ram_header::{Places, put_header};
use mig_stream::{END, FOOTER, START};
use ram_block::{PAGE, Shape};

/// The configuration: the machine's name after its length.
pub fn configuration() -> [u8; 14]
    ensures { result ≡ configuration_text }
{
    let mut text = [0; 14];
    text[0] = CONFIGURATION;
    text[1..5].copy_from_slice(&(MACHINE_NAME.len() as u32).to_be_bytes());
    text[5..14].copy_from_slice(&MACHINE_NAME);
    text
}

// What stands before the first header of the RAM's section.
fn stream_head() -> [u8; 22]
    ensures { result ≡ be32 MAGIC ++ (be32 STREAM_VERSION ++ configuration_text) }
{
    let mut text = [0; 22];
    text[0..4].copy_from_slice(&MAGIC.to_be_bytes());
    text[4..8].copy_from_slice(&STREAM_VERSION.to_be_bytes());
    text[8..22].copy_from_slice(&configuration());
    text
}

/// The first header of the RAM's section, with its version.
pub fn ram_head() -> [u8; 17]
    ensures { result ≡ start_text START RAM_SECTION RAM_NAME 0 RAM_VERSION }
{
    let mut text = [0; 17];
    text[0] = START;
    text[1..5].copy_from_slice(&RAM_SECTION.to_be_bytes());
    text[5] = RAM_NAME.len() as u8;
    text[6..9].copy_from_slice(&RAM_NAME);
    text[13..17].copy_from_slice(&RAM_VERSION.to_be_bytes());
    text
}

/// The front of a file of a machine of this shape.
#[tactic(auto, unfolding(crate::specs::Layout::front_text))]
pub(crate) fn front(shape: &Shape) -> [u8; FRONT_LEN]
    ensures { result ≡ front_text shape.now }
{
    let total = shape.ram_bytes() + TOTAL_FLAG;
    let mut text = [0; FRONT_LEN];
    text[0..22].copy_from_slice(&stream_head());
    text[22..39].copy_from_slice(&ram_head());
    text[39..47].copy_from_slice(&total.to_be_bytes());
    text
}

/// The name of a block after its length.
pub fn name_of(block: u32) -> [u8; 5]
    requires { block < 8 }
    ensures { result ≡ length (block_name block) ∷ block_name block }
{
    let mut text = [0; 5];
    text[0] = RAM_NAME.len() as u8 + 1;
    text[1..4].copy_from_slice(&RAM_NAME);
    text[4] = b'0' + block as u8;
    text
}

/// The record of a block that has these places, in a machine of this shape.
#[tactic(auto, unfolding(crate::specs::Layout::record_text))]
pub(crate) fn record(shape: &Shape, block: u32, places: &Places) -> [u8; RECORD_LEN]
    requires block { block < shape.now.blocks }
    requires places { places.now ≡ block_places shape.now.pages block }
    ensures { result ≡ record_text shape.now block }
{
    let used = PAGE as u64 * u64::from(shape.pages());
    let mut text = [0; RECORD_LEN];
    text[0..5].copy_from_slice(&name_of(block));
    text[5..13].copy_from_slice(&used.to_be_bytes());
    text[13..41].copy_from_slice(&put_header(places));
    text
}

/// What stands between the last page and the device text: the end of the setup, and the end of the RAM's section.
#[tactic(auto, unfolding(crate::specs::Layout::tail_text))]
pub fn tail() -> [u8; TAIL_LEN]
    ensures { result ≡ tail_text }
{
    let mut text = [0; TAIL_LEN];
    text[0..8].copy_from_slice(&END_FLAG.to_be_bytes());
    text[8] = FOOTER;
    text[9..13].copy_from_slice(&RAM_SECTION.to_be_bytes());
    text[13] = END;
    text[14..18].copy_from_slice(&RAM_SECTION.to_be_bytes());
    text[18..26].copy_from_slice(&END_FLAG.to_be_bytes());
    text[26] = FOOTER;
    text[27..31].copy_from_slice(&RAM_SECTION.to_be_bytes());
    text
}
