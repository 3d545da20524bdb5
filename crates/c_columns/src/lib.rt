// The function for column text that crate `zirwennach` gives to C, as include/zirwennach.h declares it.
#![tactic(auto)]

ghost use Rattle.c_columns.specs.ColumnCall as ColumnCall;

use refusal::returned;

// Column text in, a listing out. Returns how many bytes the listing has.
pub fn csx_point_list(text: &[u8], listing: &mut [u8]) -> u64
    ensures { ColumnCall.Lists text.now listing.old result listing.new }
{
    returned(column::point_list(text, listing).map(|bytes| bytes as u64))
}
