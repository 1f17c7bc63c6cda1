// The law of a visit. This function makes nothing: it is there for its contract.
ghost use Rattle.serving.specs.Visit.{CutsAreOne, VisitsReadOnce};

use wire::messages_have_one_reading;

/// The bytes of a connection are cut into requests in one way, however often it was left to wait
/// and whichever workers served it.
///
/// Of a client whose bytes are known each exchange behind which it was kept read one request, and
/// these are the requests that its bytes begin with, one behind the other: no byte is read twice,
/// and none is left out. So the k-th answer on a connection is that to its k-th request.
pub fn a_visit_reads_each_byte_once()
    ensures read { VisitsReadOnce }
    ensures once { CutsAreOne }
{
    messages_have_one_reading();
}
