// The C function for column text.
ghost use Rattle.c_columns.specs.ColumnCall as ColumnCall;

// Column text in, a listing out. Returns how many bytes the listing has.
#[unsafe(no_mangle)]
pub extern "C" fn csx_point_list(text: &[u8], listing: &mut [u8]) -> u64
    ensures { ColumnCall.Lists text.now listing.old result listing.new }
{
    c_columns::csx_point_list(text, listing)
}
