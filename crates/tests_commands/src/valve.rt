//! The program that opens a valve, with a frame that is long enough and with one that is not, and
//! what is put of it.

pub(crate) const LATE: &str =
    "program a device valve : out process p : periodic frame 14 begin put valve 7 end p end a";

/// The canonical text.
pub(crate) const PRINTED: &str =
    "program a\ndevice valve : out\nprocess p : periodic frame 15\nbegin\nput valve 7\nend p\nend a\n";

pub(crate) const REPORT: &str =
    "program a\nprocess p frame 15 rank 1 cost 15 suspend 0 waits 0 block 0 bound 15 data 0 stack 1\ncode 3\ntimely\n";

pub(crate) const LATE_REPORT: &str =
    "program a\nprocess p frame 14 rank 1 cost 15 suspend 0 waits 0 block 0 bound none data 0 stack 1\ncode 3\nuntimely p\n";

pub(crate) const JSON: &str =
    "{\"code\":3,\"monitors\":[],\"processes\":[{\"block\":0,\"bound\":15,\"cost\":15,\"data\":0,\"frame\":15,\"name\":\"p\",\"rank\":1,\"stack\":1,\"suspend\":0,\"waits\":0}],\"program\":\"a\",\"timely\":true}\n";

pub(crate) const LOG: &str = "0 p release\n10 p put valve 7\n14 p end\n";

/// The first two lines of the log, and the first one.
pub(crate) const TWO_LINES: &str = "0 p release\n10 p put valve 7\n";

pub(crate) const ONE_LINE: &str = "0 p release\n";

/// What `go` puts: the report and the log.
pub(crate) const WHOLE: &str =
    "program a\nprocess p frame 15 rank 1 cost 15 suspend 0 waits 0 block 0 bound 15 data 0 stack 1\ncode 3\ntimely\n0 p release\n10 p put valve 7\n14 p end\n";

/// The report and the first two lines of the log.
pub(crate) const UP_TO_TWO: &str =
    "program a\nprocess p frame 15 rank 1 cost 15 suspend 0 waits 0 block 0 bound 15 data 0 stack 1\ncode 3\ntimely\n0 p release\n10 p put valve 7\n";

/// The report and the first line of the log.
pub(crate) const UP_TO_ONE: &str =
    "program a\nprocess p frame 15 rank 1 cost 15 suspend 0 waits 0 block 0 bound 15 data 0 stack 1\ncode 3\ntimely\n0 p release\n";
