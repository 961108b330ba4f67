// As many devices as may be taken, and as may be present.

use crate::Piece;

/// Behind 129 devices, of which a session has taken 128.
pub const FULL: Piece = (
    "\
call 2 200 take c1 14 129
call 2 201 take c1 14 1
call 2 202 release c1 14 1
call 2 203 take c1 14 129
call 2 204 take c1 14 1
call 3 200 take c2 14 1
end
",
    "\
267 call 2 200 take c1 14 129
 denied P26 limit devices-taken 128
268 call 2 201 take c1 14 1
 denied P19 device-taken
269 call 2 202 release c1 14 1
 granted
 set live 3 false
 set taken c1 14:1 -
270 call 2 203 take c1 14 129
 granted 131 false
 set owner 131 device 2 c1 14:129
 set taken c1 14:129 131
 set live 131 true
271 call 2 204 take c1 14 1
 denied P26 limit devices-taken 128
272 call 3 200 take c2 14 1
 granted 132 true
 set owner 132 device 3 c2 14:1
 set taken c2 14:1 132
end 272
",
);

/// Behind as many devices as may be.
pub const PRESENT: Piece = (
    "\
add 14 4097 evdev seat0
add 226 0 drm seat-x
add 14 4096 evdev seat0
remove 14 4097
remove 14 7
add 226 0 drm seat-x
add 14 7 evdev seat0
end
",
    "\
4097 add 14 4097 evdev seat0
 denied P26 limit devices 4096
4098 add 226 0 drm seat-x
 denied P26 limit devices 4096
4099 add 14 4096 evdev seat0
 denied P30 device-present
4100 remove 14 4097
 denied P31 device-absent
4101 remove 14 7
 granted
 set dev 14:7 absent
4102 add 226 0 drm seat-x
 granted
 set dev 226:0 drm seat-x
 set seat seat-x present
 all seat-new seat-x
4103 add 14 7 evdev seat0
 denied P26 limit devices 4096
end 4103
",
);
