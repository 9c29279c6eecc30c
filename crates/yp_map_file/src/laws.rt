//! What joins bodies, cells and files. Each law is the contract of a function that does nothing.

ghost use Rattle.yp_map_file.specs.inside.Laws.{BodyIsReadAgain, ReadIsBody, FileIsBounded};

/// The body of a version is read again as that version.
pub fn body_is_read_again()
    ensures { BodyIsReadAgain }
{
    yp_xdr::laws::written_is_read_again();
}

/// A version that is read of bytes has them as its body.
pub fn read_is_body()
    ensures { ReadIsBody }
{
    yp_xdr::laws::read_is_spelled();
}

/// No file that commits and crashes leave of one that isn't damaged is over the most bytes.
pub fn file_is_bounded()
    ensures { FileIsBounded }
{}
