// The table, and its rows one by one or all together.

/// The row of a key, for the macro of the path in brackets, which takes it behind the tokens given.
#[macro_export]
macro_rules! key_row {
    (Version [$($row:tt)*] $($given:tt)*) => { $($row)*! { $($given)*
        Version "  version       " "2, or 1 with the shares of classes in percent; required";
    } };
    (Listen [$($row:tt)*] $($given:tt)*) => { $($row)*! { $($given)*
        Listen "  listen        " "A.B.C.D:PORT, port 1 to 65535, where requests come in; required";
    } };
    (Backend [$($row:tt)*] $($given:tt)*) => { $($row)*! { $($given)*
        Backend "  backend       " "A.B.C.D:PORT, port 1 to 65535, where they go to; required";
    } };
    (Backlog [$($row:tt)*] $($given:tt)*) => { $($row)*! { $($given)*
        Backlog "  backlog       " "how many callers may wait for a permit, "
            [0 to 10000; default 100];
    } };
    (Wait [$($row:tt)*] $($given:tt)*) => { $($row)*! { $($given)*
        Wait "  wait          " "whether refused callers wait at all, "
            [true or false; default true];
    } };
    (TimeoutMs [$($row:tt)*] $($given:tt)*) => { $($row)*! { $($given)*
        TimeoutMs "  timeout_ms    " "the longest wait in milliseconds, "
            [1 to 3600000; default 1000];
    } };
    (Clients [$($row:tt)*] $($given:tt)*) => { $($row)*! { $($given)*
        Clients "  clients       version 2: " "places for clients that are kept or silent, "
            [0 to 10000; default 0];
    } };
    (ClientIdleMs [$($row:tt)*] $($given:tt)*) => { $($row)*! { $($given)*
        ClientIdleMs "  client_idle_ms  version 2: "
            "how long a kept client may be idle, "
            [1 to 3600000; default 60000];
    } };
    (Backends [$($row:tt)*] $($given:tt)*) => { $($row)*! { $($given)*
        Backends "  backends      version 2: " "connections to the backend that are kept, "
            [0 to 4096; default 0];
    } };
    (BackendIdleMs [$($row:tt)*] $($given:tt)*) => { $($row)*! { $($given)*
        BackendIdleMs "  backend_idle_ms  version 2: "
            "how long one may be idle and be used again, "
            [1 to 3600000; default 1000];
    } };
    (BodiesMib [$($row:tt)*] $($given:tt)*) => { $($row)*! { $($given)*
        BodiesMib "  bodies_mib    version 2: " "MiB of bodies in all, "
            [16 to 1048576; default none, with exchanges 1024];
    } };
    (Keep [$($row:tt)*] $($given:tt)*) => { $($row)*! { $($given)*
        Keep "  keep          " "entries of the history that are kept, "
            [1 to 1000000; default 4096];
    } };
    (Promote [$($row:tt)*] $($given:tt)*) => { $($row)*! { $($given)*
        Promote "  promote       "
            "which waiters get room that falls free, \"newest\" or \"all\"; default \"newest\"";
    } };
    (Limit [$($row:tt)*] $($given:tt)*) => { $($row)*! { $($given)*
        Limit "[limit], required:" "" explained "a table, [limit]; required";
    } };
    (LimitKind [$($row:tt)*] $($given:tt)*) => { $($row)*! { $($given)*
        LimitKind "  kind          "
            "\"fixed\", \"settable\", \"aimd\", \"vegas\" or, in version 2, \"auto\"; required";
    } };
    (LimitMin [$($row:tt)*] $($given:tt)*) => { $($row)*! { $($given)*
        LimitMin "  min           " "permits, " [1 to 10000; default 1] help ". Not of fixed";
    } };
    (LimitMax [$($row:tt)*] $($given:tt)*) => { $($row)*! { $($given)*
        LimitMax "  max           " "permits, "
            [min to 10000; default 200, of auto what the workers leave over] help ". Not fixed";
    } };
    (LimitInitial [$($row:tt)*] $($given:tt)*) => { $($row)*! { $($given)*
        LimitInitial "  initial       " "permits, "
            [min to max, of fixed 1 to 10000; default 20, of auto 4];
    } };
    (LimitRatio [$($row:tt)*] $($given:tt)*) => { $($row)*! { $($given)*
        LimitRatio "  ratio         aimd: " "what a drop leaves in thousandths, "
            [500 to 999; default 900];
    } };
    (LimitTimeoutUs [$($row:tt)*] $($given:tt)*) => { $($row)*! { $($given)*
        LimitTimeoutUs "  timeout_us    aimd: " "a longer round trip is a drop, microseconds, "
            [1 to 3600000000; default 5000000];
    } };
    (LimitAlpha [$($row:tt)*] $($given:tt)*) => { $($row)*! { $($given)*
        LimitAlpha "  alpha         vegas: " "the limit rises below this queue, permits, "
            [1 to 100; default 3];
    } };
    (LimitBeta [$($row:tt)*] $($given:tt)*) => { $($row)*! { $($given)*
        LimitBeta "  beta          vegas: " "the limit falls above this queue, permits, "
            [alpha to 100; default 6];
    } };
    (LimitProbeEvery [$($row:tt)*] $($given:tt)*) => { $($row)*! { $($given)*
        LimitProbeEvery "  probe_every   vegas: "
            "samples until the base is measured anew, "
            [0 to 1000000; default 0, never];
    } };
    (Window [$($row:tt)*] $($given:tt)*) => { $($row)*! { $($given)*
        Window "[window], from which the limit then learns:" ""
            explained "a table, [window]; default none";
    } };
    (WindowSize [$($row:tt)*] $($given:tt)*) => { $($row)*! { $($given)*
        WindowSize "  size          " "samples, " [1 to 1000000; default 10];
    } };
    (WindowMinUs [$($row:tt)*] $($given:tt)*) => { $($row)*! { $($given)*
        WindowMinUs "  min_us        " "the shortest window in microseconds, "
            [1 to 3600000000; default 1000000];
    } };
    (WindowMaxUs [$($row:tt)*] $($given:tt)*) => { $($row)*! { $($given)*
        WindowMaxUs "  max_us        " "the longest window in microseconds, "
            [min_us to 3600000000; default 1000000];
    } };
    (WindowMinRttUs [$($row:tt)*] $($given:tt)*) => { $($row)*! { $($given)*
        WindowMinRttUs "  min_rtt_us    " "quicker answers are left out, microseconds, "
            [0 to 3600000000; default 100];
    } };
    (Class [$($row:tt)*] $($given:tt)*) => { $($row)*! { $($given)*
        Class "[[class]], at most four, a promised share of the limit:" ""
            explained "an array of at most four tables, [[class]]; default none";
    } };
    (ClassName [$($row:tt)*] $($given:tt)*) => { $($row)*! { $($given)*
        ClassName "  name          "
            "1 to 32 of a-z 0-9 - _, not unknown, not given before; required";
    } };
    (ClassShare [$($row:tt)*] $($given:tt)*) => { $($row)*! { $($given)*
        ClassShare "  share         version 2: " "thousandths, "
            [1 to what the classes before leave of 1000; required];
    } };
    (ClassPercent [$($row:tt)*] $($given:tt)*) => { $($row)*! { $($given)*
        ClassPercent "  percent       version 1: " "percent, "
            [1 to what the classes before leave of 100; required];
    } };
    (ClassPlaces [$($row:tt)*] $($given:tt)*) => { $($row)*! { $($given)*
        ClassPlaces "  places        version 2: " "own places, "
            [0 to what backlog and those before leave of 10000; default 0];
    } };
    (Resolver [$($row:tt)*] $($given:tt)*) => { $($row)*! { $($given)*
        Resolver "[[resolver]], at most 32; the first that finds a class tells it." ""
            help " All its keys are required:"
            explained "an array of at most 32 tables, [[resolver]]; default none";
    } };
    (ResolverKind [$($row:tt)*] $($given:tt)*) => { $($row)*! { $($given)*
        ResolverKind "  kind          " "\"header\", \"method\" or \"route\""
            explained "; required";
    } };
    (ResolverHeader [$($row:tt)*] $($given:tt)*) => { $($row)*! { $($given)*
        ResolverHeader "  header        header: " "the name of the header that has the class's name"
            explained "; required";
    } };
    (ResolverMethod [$($row:tt)*] $($given:tt)*) => { $($row)*! { $($given)*
        ResolverMethod "  method        method: " "requests of exactly this method"
            help ", such as \"POST\", have the class of" explained " have the class; required";
    } };
    (ResolverClass [$($row:tt)*] $($given:tt)*) => { $($row)*! { $($given)*
        ResolverClass "  class         method: " "" help "this name"
            explained "the name of a class; required";
    } };
    (ResolverRoutes [$($row:tt)*] $($given:tt)*) => { $($row)*! { $($given)*
        ResolverRoutes "  routes        route: "
            "a table of at most 256 patterns, each with a class's name" explained "; required";
    } };
    (Bypass [$($row:tt)*] $($given:tt)*) => { $($row)*! { $($given)*
        Bypass "[[bypass]], at most 32; one that holds lets a request past the limit." ""
            help " All its keys are required:"
            explained "an array of at most 32 tables, [[bypass]]; default none";
    } };
    (BypassKind [$($row:tt)*] $($given:tt)*) => { $($row)*! { $($given)*
        BypassKind "  kind          " "\"method\", \"prefix\" or \"header\"" explained "; required";
    } };
    (BypassMethod [$($row:tt)*] $($given:tt)*) => { $($row)*! { $($given)*
        BypassMethod "  method        method: " "" help "of exactly this method"
            explained "requests of exactly this method; required";
    } };
    (BypassPrefix [$($row:tt)*] $($given:tt)*) => { $($row)*! { $($given)*
        BypassPrefix "  prefix        prefix: "
            "paths that begin with this text, itself beginning with /" explained "; required";
    } };
    (BypassHeader [$($row:tt)*] $($given:tt)*) => { $($row)*! { $($given)*
        BypassHeader "  header        header: " "" help "some header of this name has"
            explained "the name of a header; required";
    } };
    (BypassEquals [$($row:tt)*] $($given:tt)*) => { $($row)*! { $($given)*
        BypassEquals "  equals        header: " "exactly this text"
            explained " is the header's value; required";
    } };
}

/// All rows in the order of the help, for a macro that takes them behind the tokens given.
#[macro_export]
macro_rules! key_rows {
    ($rows:ident, $($given:tt)*) => {
        $crate::key_rows! {
            @ $rows [$($given)*]
            Version
            Listen
            Backend
            Backlog
            Wait
            TimeoutMs
            Clients
            ClientIdleMs
            Backends
            BackendIdleMs
            BodiesMib
            Keep
            Promote
            Limit
            LimitKind
            LimitMin
            LimitMax
            LimitInitial
            LimitRatio
            LimitTimeoutUs
            LimitAlpha
            LimitBeta
            LimitProbeEvery
            Window
            WindowSize
            WindowMinUs
            WindowMaxUs
            WindowMinRttUs
            Class
            ClassName
            ClassShare
            ClassPercent
            ClassPlaces
            Resolver
            ResolverKind
            ResolverHeader
            ResolverMethod
            ResolverClass
            ResolverRoutes
            Bypass
            BypassKind
            BypassMethod
            BypassPrefix
            BypassHeader
            BypassEquals
        }
    };
    // Each row goes behind those before it.
    (@ $rows:ident $given:tt $first:ident $($key:ident)*) => {
        $crate::key_row! { $first $([$crate::key_row] $key)* [$rows] $given }
    };
}
