// The frame header.
ghost use Rattle.std.specs.Prelude.{◌≡◌, Ok};
ghost use Rattle.format.specs.Header.{read_header, fm1_fixed, fm2_fixed};
ghost use Rattle.format.specs.HeaderWriting.{header_bytes, HeadersReadBack, HeaderBytesWrittenBack};

use crate::bits::bit_at;
use crate::packing::byte_of;
use crate::refusal::{HeaderByte, Refusal};

// The bytes of a header.
pub const HEADER_BYTES: usize = 5;

// What a frame header says. The parity is that of the frame before; buffer control, frequency control
// and DRR are only carried.
#[derive(Clone, Copy, PartialEq, Eq, Debug)]
pub struct Header {
    pub parity: u8,
    pub sbc: bool,
    pub brc: bool,
    pub buc: bool,
    pub drm: bool,
    pub buffer_control: u8,
    pub drr: bool,
    pub crm1: bool,
    pub crm2: bool,
    pub frequency_control: u8,
}

// The bits of FM1 are SBC BRC BUC DRM 1 0 0 0.
fn fm1_fixed(fm1: u8) -> bool
    ensures { result ≡ fm1_fixed fm1 }
{
    bit_at(3, fm1) && !bit_at(2, fm1) && !bit_at(1, fm1) && !bit_at(0, fm1)
}

// The bits of FM2 are 1 DRR CMS CRM1 CRM2 SF1 MAF 1, with CMS, SF1 and MAF 1.
fn fm2_fixed(fm2: u8) -> bool
    ensures { result ≡ fm2_fixed fm2 }
{
    bit_at(7, fm2) && bit_at(5, fm2) && bit_at(2, fm2) && bit_at(1, fm2) && bit_at(0, fm2)
}

impl Header {
    // The five bytes of a header are PT, FM1, BC, FM2 and FC.
    pub fn read(bytes: &[u8]) -> Result<Header, Refusal>
        ensures { result ≡ read_header bytes.now }
    {
        let [parity, fm1, buffer_control, fm2, frequency_control] = bytes else {
            return Err(Refusal::WrongLength(bytes.len()));
        };
        if !fm1_fixed(*fm1) {
            return Err(Refusal::FixedHeaderBit(HeaderByte::Fm1));
        }
        if !fm2_fixed(*fm2) {
            return Err(Refusal::FixedHeaderBit(HeaderByte::Fm2));
        }
        Ok(Header {
            parity: *parity,
            sbc: bit_at(7, *fm1),
            brc: bit_at(6, *fm1),
            buc: bit_at(5, *fm1),
            drm: bit_at(4, *fm1),
            buffer_control: *buffer_control,
            drr: bit_at(6, *fm2),
            crm1: bit_at(4, *fm2),
            crm2: bit_at(3, *fm2),
            frequency_control: *frequency_control,
        })
    }

    // The five bytes of a header, with the fixed bits of FM1 and FM2.
    pub fn write(&self) -> [u8; HEADER_BYTES]
        ensures bytes { result ≡ header_bytes self.now }
        ensures read_back { read_header result ≡ Ok self.now }
    {
        [
            self.parity,
            byte_of([
                self.sbc, self.brc, self.buc, self.drm, true, false, false, false,
            ]),
            self.buffer_control,
            byte_of([true, self.drr, true, self.crm1, self.crm2, true, true, true]),
            self.frequency_control,
        ]
    }
}

// Reading what was written gives the same header, and writing what was read the same bytes.
#[tactic(auto, using(crate::proofs::HeaderLaws::headers_read_back, crate::proofs::HeaderLaws::header_bytes_written_back))]
pub fn headers_survive()
    ensures read_back { HeadersReadBack }
    ensures written_back { HeaderBytesWrittenBack }
{}
